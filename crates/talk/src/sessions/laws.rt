//! The laws on sessions, each the contract of a function with nothing to do.
ghost use Rattle.talk.specs.SessionLaws.{EditsApart, SessionsAgree, SessionsPart};

/// An edited model that a session goes on to isn't refused as well.
pub fn edits_apart()
    ensures { EditsApart }
{}

/// A session over lines is one over the first of them, with the replies to the others after it.
pub fn sessions_part()
    ensures { SessionsPart }
{}

/// Sessions over the same lines come to states that are alike, whatever plans, labels, routes and cuts are chosen.
pub fn sessions_agree()
    ensures { SessionsAgree }
{}
