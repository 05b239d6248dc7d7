//! The numbers that decide how hard a search tries before another takes over, each with what is known of it.
//!
//! No answer is wrong by any of them: they decide how soon it comes, and which of the best plans it is.

/// The distance label of a pair to which nobody can come: more than any other label.
pub const FAR: u32 = 65_535;

/// The most stays of an augmenting path. A longer one ends the search, and others take over. Memory past the longest path isn't
/// touched.
pub const PATH_LIMIT: usize = 65_536;

/// The limit of the weights with which a search begins. Without weights people walk in circles: nine of ten in a mall or a ship whose halls are
/// two-way. With this limit it is one of ten at most in three of four buildings, but one of two in a market hall.
pub const LOW_LIMIT: u16 = 2;

/// The limit once too many people were sent astray. A search costs twice as much by it. In a market hall one of thirteen comes to a place twice then.
pub const HIGH_LIMIT: u16 = 8;

/// One of how many people may be sent astray, besides some, before the limit rises. With 24 in place of 16 it rises in arenas and rings too,
/// whose plans get no straighter by it.
pub const ASTRAY_SHARE: u32 = 16;

/// How many may be sent astray besides.
pub const ASTRAY_LIMIT: u32 = 8;

/// One of how many people may be sent astray by the high limit, besides some, before it falls again. On zigzags, whose halls are all full, a
/// search takes twice as many instructions if it stays high, and a third of the people comes to a place twice all the same.
pub const VAIN_SHARE: u32 = 8;

/// How many may be sent astray besides.
pub const VAIN_LIMIT: u32 = 32;

/// The most waits that count as one step.
pub const RUN_LENGTH: u32 = 128;

/// How many times pairs may be relabelled one by one without a push, for each that was relabelled, until there is a global relabelling: one
/// after another they can go on for long, where many pairs raise each other by 1. With once in place of twice a hospital took 12 in 100 more
/// instructions and a line of platforms 13, but a tower whose people come in later 6 less.
pub const RELABEL_FACTOR: usize = 2;

/// How many times besides.
pub const RELABEL_LIMIT: usize = 20;

/// How many times all pairs may be relabelled globally at one moment, before others take over, where nobody comes in later. On some
/// buildings, once an exit is shut, more would cost more than it saves.
pub const GLOBAL_LIMIT: usize = 4;

/// One of how many pairs are taken to be ancestors of those relabelled, until they were counted. Without their ancestors the same pairs are
/// relabelled hundreds of times on ladders and on metro lines with few exits: a ladder that took 3.2 s takes 0.14 s since all are relabelled
/// at once. With 8 a tower has no part in that, and with 128 a hospital takes 9 in 100 more instructions.
pub const ANCESTOR_GUESS: usize = 32;

/// One of how many of them may be relabelled without their ancestors, where people come in later, before all are at once. Where nobody does
/// it is as many as there are.
pub const ANCESTOR_SHARE: usize = 16;

/// One of how many of the pairs up to the last arrival are taken to be living in a net from which some people were taken, until they were
/// counted.
pub const LIVING_GUESS: usize = 2;

/// One of how many of them may be relabelled otherwise, before all are from the unsent people on. With 1 it takes four times as many
/// instructions to shut an exit of a metro.
pub const LIVING_SHARE: usize = 4;

/// For one of how many people a pair more may be relabelled globally in a net from which some people were taken, before a target flow is
/// sought: a target flow is dearer the more people there are.
pub const CROWD_SHARE: u64 = 8;

/// One of how many pairs may be relabelled there besides, if everybody is sent along shortest paths. Giving up after most are sent
/// costs more than going on.
pub const EARNED_SHARE: u64 = 2;
