//! What an index covers after more was taken, and after a session was ended; under which networks sessions are listed, and whose
//! rules can change where one changes.
ghost use Rattle.bind_index.specs.Forgetting.{EndedShowNothing};
ghost use Rattle.bind_index.specs.Index.{CoversWithMore, CoversUnions};
ghost use Rattle.bind_index.specs.Neighbours.{NeighboursAlone};
ghost use Rattle.bind_index.specs.Networks.{CoversInItsNetwork};

/// An index that covers what is held, and then lists an operation's session, covers what is held with the operation; and one
/// that covers two holdings covers what is kept of both.
pub fn covering_goes_on()
    ensures taken { CoversWithMore }
    ensures union { CoversUnions }
{}

/// An ended session shows nothing, so an index may forget it.
pub fn ended_sessions_show_nothing()
    ensures { EndedShowNothing }
{}

/// Where one prefix covers another, it has fewer bits than say a network, or both are of one network.
pub fn prefixes_cover_in_their_network()
    ensures { CoversInItsNetwork }
{}

/// Where the facts of one session alone change, only sessions can get other rules that share an address with it, before or after,
/// or of which a prefix covers one of its own; or is covered by one, where it is of a gateway.
pub fn change_of_one_session_changes_its_neighbours_alone()
    ensures { NeighboursAlone }
{}
