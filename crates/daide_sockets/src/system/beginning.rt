//! What the sockets of a run are made of when it begins.

ghost use Rattle.std.specs.Prelude.{◌≡◌, IfOk, IfSome, false, [], length};
ghost use Rattle.daide_sockets.specs.Lingering.{no_closing};
ghost use Rattle.daide_sockets.specs.Pairing.{pending_connects};
ghost use Rattle.daide_sockets.specs.Scheduling.{BeginsListening};

use crate::admission::{Acceptor, PendingConnection};
use crate::control::Control;
use crate::lingering_close::Closings;
use crate::poller::Poller;
use crate::present::Present;
use crate::table::SocketTable;
use daide_io::duplex::Duplex;
use daide_io::network::Network;
use std::alloc::{AllocError, Global};
use std::time::Duration;

/// The bots and the sockets of a run, of which there are none yet.
pub(super) struct RunLists<'w, S: Duplex + Drop> {
    /// The bot at each place, while its connect is under way.
    pub arrivals: Vec<Option<PendingConnection<'w, S>>>,
    /// The bots that are there.
    pub present: Present,
    /// The sockets that close.
    pub closings: Closings<'w, S>,
}

/// Returns this number of places at which no connect is under way. Fails if their memory is refused.
fn no_arrivals<'w, S: Duplex + Drop>(
    alloc: Global,
    places: usize,
) -> Result<Vec<Option<PendingConnection<'w, S>>>, AllocError>
    ensures { IfOk result (λ arrivals. (pending_connects arrivals.items ≡ 0) × (length arrivals.items ≡ places)) }
{
    let mut arrivals = Vec::with_capacity(alloc, places)?;
    for _place in 0..places {
        arrivals.push_reserved(None);
    }
    Ok(arrivals)
}

impl<'w, S: Duplex + Drop> RunLists<'w, S> {
    /// Creates the lists of a run with at most this many sessions at once, and the stall timeout of a peer whose socket
    /// closes. Returns `None` if memory is refused.
    pub fn new(
        alloc: Global,
        max_sessions: usize,
        stall_time: Option<Duration>,
    ) -> Option<RunLists<'w, S>>
        ensures none_pending { IfSome result (λ lists. (pending_connects lists.arrivals.items ≡ 0)
            × (lists.closings ≡ no_closing stall_time)) }
        ensures room { IfSome result (λ lists. length lists.arrivals.items ≡ max_sessions) }
        ensures none_present { IfSome result (λ lists. lists.present.bots.items ≡ []) }
    {
        let Ok(arrivals) = no_arrivals(alloc, max_sessions) else {
            return None;
        };
        let present = Present::new(alloc, max_sessions)?;
        let Ok(closings) = Closings::new(alloc, stall_time) else {
            return None;
        };
        Some(RunLists {
            arrivals,
            present,
            closings,
        })
    }
}

/// The network of a run, with its listeners followed.
pub(super) struct Listening<N: Network> {
    /// What polls the network, with its table.
    pub poller: Poller<N>,
    /// What accepts the bots.
    pub acceptor: Acceptor,
    /// The control socket, to which nobody has connected yet.
    pub control: Control<N::Connection>,
}

impl<N: Network> Listening<N> {
    /// Has the listeners of a network followed. Returns `None` if memory is refused, or if a listener cannot be followed.
    pub fn new(alloc: Global, network: N, table: SocketTable) -> Option<Listening<N>>
        ensures none_came { IfSome result (λ listening. (listening.acceptor.came ≡ 0) × (listening.acceptor.is_closed ≡ false)) }
        ensures no_orders { IfSome result (λ listening. (listening.control.stops_accepting ≡ false)
            × (listening.control.stops_now ≡ false)) }
        ensures table { IfSome result (λ listening.
            listening.poller.table ≡ record table { reading = listening.poller.table.reading }) }
        ensures listens { IfSome result (λ listening.
            BeginsListening N.transition listening.poller.table network listening.poller.network) }
    {
        let Ok(mut poller) = Poller::new(alloc, network, table) else {
            return None;
        };
        let acceptor = Acceptor::new(&mut poller)?;
        let control = Control::new(alloc, &mut poller)?;
        Some(Listening {
            poller,
            acceptor,
            control,
        })
    }
}
