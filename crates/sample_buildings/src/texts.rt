//! The buildings, from the smallest to an office: first how long a period is and how many there are, then the nodes, then the arcs.

/// Three people in a room, of whom two a period go through its door.
pub const ONE_ROOM: &str = "evacplan 1\nperiod 5\nhorizon 20\nfloor 1 Ground\n\
    node WP1.1 10 3\nnode DS1.1\narc WP1.1 DS1.1 1 2\nend\n";

/// `ONE_ROOM` with nobody in it.
pub const EMPTY_ROOM: &str = "evacplan 1\nperiod 5\nhorizon 20\nfloor 1 Ground\n\
    node WP1.1 10 0\nnode DS1.1\narc WP1.1 DS1.1 1 2\nend\n";

/// Five people in a room without a door.
pub const TRAPPED: &str = "evacplan 1\nperiod 5\nhorizon 10\nfloor 1 Ground\n\
    node WP1.1 5 5\nnode DS1.1\nend\n";

/// Eight people in a room, with a short and narrow way to one exit and a long and wide one to another.
pub const TWO_EXITS: &str = "evacplan 1\nperiod 5\nhorizon 20\nfloor 1 Ground\n\
    node WP1.1 8 8\nnode DS1.1\nnode DS2.1\n\
    arc WP1.1 DS1.1 1 1\narc WP1.1 DS2.1 3 5\nend\n";

/// Two rooms with one person each, who go out through a hall; the first room has a longer way of its own.
pub const TWO_ROOMS: &str = "evacplan 1\nperiod 5\nhorizon 20\nfloor 1 Ground\n\
    node WP1.1 1 1\nnode WP2.1 1 1\nnode HA1.1 1 0\nnode DS1.1\nnode DS2.1\n\
    arc WP1.1 HA1.1 1 1\narc WP1.1 DS2.1 2 1\narc WP2.1 HA1.1 1 1\narc HA1.1 DS1.1 1 1\nend\n";

/// Four people in a room, who go one by one through a hall in which nobody can wait.
pub const THROUGH_HALL: &str = "evacplan 1\nperiod 5\nhorizon 20\nfloor 1 Ground\n\
    node WP1.1 5 4\nnode HA1.1 0 0\nnode DS1.1\n\
    arc WP1.1 HA1.1 1 3\narc HA1.1 DS1.1 1 1\nend\n";

/// An office of three storeys with 240 people, two stairs and two exits.
pub const OFFICE: &str = "evacplan 1\ntitle Three storey office\nperiod 5\nhorizon 120\n\
    floor 1 Ground\nfloor 2 Second\nfloor 3 Third\n\
    node WP1.1 80 60\nnode LO1.1 40 0\nnode DS1.1\nnode DS2.1\n\
    node WP1.2 60 45\nnode WP2.2 60 45\nnode HA1.2 30 0\nnode SW1.2 16 0\nnode SW2.2 16 0\n\
    node WP1.3 60 45\nnode WP2.3 60 45\nnode HA1.3 30 0\nnode SW1.3 16 0\nnode SW2.3 16 0\n\
    arc WP1.1 LO1.1 1 10\narc LO1.1 DS1.1 1 8\narc WP1.2 HA1.2 1 6\narc WP2.2 HA1.2 1 6\n\
    arc HA1.2 SW1.2 1 4\narc HA1.2 SW2.2 1 4\narc SW1.2 LO1.1 3 4\narc SW2.2 DS2.1 4 4\n\
    arc WP1.3 HA1.3 1 6\narc WP2.3 HA1.3 1 6\narc HA1.3 SW1.3 1 4\narc HA1.3 SW2.3 1 4\n\
    arc SW1.3 SW1.2 3 4\narc SW2.3 SW2.2 3 4\nend\n";
