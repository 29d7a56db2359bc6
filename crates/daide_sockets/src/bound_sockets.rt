//! The resources of a run: its listener, the addresses of the server, and the table of its sockets.

ghost use Rattle.std.specs.Prelude.{◌≡◌, ◌≢◌, IfErr, IfOk, IfSome, false, [], length};
ghost use Rattle.daide_sockets.specs.Addresses.{AreAddressesOf, IsBindCause, IsLookUpError};
ghost use Rattle.daide_sockets.specs.Lingering.{no_closing};
ghost use Rattle.daide_sockets.specs.Pairing.{pending_connects};
ghost use Rattle.daide_sockets.specs.Rows.{AreRowsOf, closing_keys};
ghost use Rattle.daide_status.specs.Counts.{no_counts};
ghost use Rattle.daide_sockets.specs.Scheduling.{BeginsListening};
ghost use Rattle.daide_sockets.specs.ServerStates.{untried_at};
ghost use Rattle.daide_sockets.specs.Table.{new_table};
ghost use Rattle.daide_sockets.specs.Clock.{IsSeconds, IsIdleTime};

use crate::addresses::{AddressFault, listener_on, looked_up};
use crate::lingering_close::MOST_CLOSING;
use crate::os_network::{NetworkError, OsNetwork};
use crate::poller::EVENTS;
use crate::system::Sockets;
use crate::table::SocketTable;
use daide_buffered_io::pool::Pool;
use daide_causes::Sink;
use daide_io::network::Network;
use daide_settings::{Key, Settings};
use mio::net::TcpListener;
use std::alloc::Global;
use std::io::ErrorKind;
use std::net::{Net, SocketAddr};
use std::rt::Clock;
use std::time::Duration;
use thiserror::Error;

/// The deadline of a connect to the server, in seconds.
pub(crate) const CONNECT_SECONDS: u64 = 5;

/// Why the resources of a run could not be created.
#[derive(Clone, Copy, Debug, Error)]
pub enum BindError {
    /// The system knows no address of the host of this key.
    #[error("unknown name")]
    Name(Key),
    /// The address cannot be bound, or the system has no descriptor for the network, with the system's error.
    #[error("cannot listen")]
    Listen(ErrorKind),
    /// The allocator refused the addresses or the table.
    #[error("out of memory")]
    Memory,
}

/// Looks up the address of this key.
fn addresses_at<R: AllocGlobal + Net>(
    rt: &R,
    key: Key,
    address: &str,
) -> Result<Vec<SocketAddr>, BindError>
    ensures found { IfOk result (λ all. AreAddressesOf address.now all.items) }
    ensures cause { IfErr result (IsLookUpError key address.now) }
{
    match looked_up(rt.alloc(), rt, address) {
        Ok(all) => Ok(all),
        Err(AddressFault::Unknown) => Err(BindError::Name(key)),
        Err(AddressFault::Silent | AddressFault::Refused(_)) => Err(BindError::Memory),
    }
}

/// Creates the network of the operating system, with this listener for bots.
fn network_with<R: AllocGlobal + Clock + Net>(
    rt: &R,
    listener: TcpListener,
) -> Result<OsNetwork<'_, R>, BindError>
    ensures { IfErr result (λ error. (key : Key) → error ≢ BindError.Name key) }
{
    match OsNetwork::new(rt.alloc(), rt, listener, EVENTS) {
        Ok(network) => Ok(network),
        Err(NetworkError::System(cause)) => Err(BindError::Listen(cause)),
        Err(NetworkError::Memory) => Err(BindError::Memory),
    }
}

/// Returns the address of a listener that was bound to this one, if the system chose its port.
fn address_chosen(listener: &TcpListener, bound: SocketAddr) -> Option<SocketAddr> {
    if bound.port() == 0 {
        listener.local_addr().ok()
    } else {
        None
    }
}

/// The resources of a run: its listener, the addresses of the server, and the table of its sockets.
#[derive(Drop)]
pub struct BoundSockets<'r, R: Clock + Net> {
    /// The network of the operating system, with the listener for bots.
    pub network: OsNetwork<'r, R>,
    /// The address of the listener, if the system chose its port.
    pub chosen: Option<SocketAddr>,
    /// The addresses of the server.
    pub servers: Vec<SocketAddr>,
    /// The table of the sockets.
    pub table: SocketTable,
    /// The buffers of the sockets.
    pub pool: Pool,
}

/// Looks up both addresses of the settings, and listens at the first one. The table has the rows of each place, and those of
/// the closing sockets. The system decides which listener it is, and the addresses of a name.
///
/// Fails with `Name` if the system knows no address of a host. Then fails with `Listen` if no address can be bound, or
/// if there is no descriptor for the network. Fails with `Memory` at a growth that was refused.
///
/// `servers`: no run begins without an address of its server, and one in digits is its own.
///
/// `cause`: an address in digits is never called unknown.
pub fn bind_sockets<'r, R: AllocGlobal + Clock + Net>(
    rt: &'r R,
    settings: &Settings,
) -> Result<BoundSockets<'r, R>, BindError>
    ensures rows { IfOk result (λ bound. bound.table ≡ new_table settings.now.max_sessions MOST_CLOSING) }
    ensures servers { IfOk result (λ bound. AreAddressesOf settings.now.server bound.servers.items) }
    ensures cause { IfErr result (IsBindCause settings.now) }
{
    let places = addresses_at(rt, Key::Listen, settings.listen.as_str())?;
    let servers = addresses_at(rt, Key::Server, settings.server.as_str())?;
    let (listener, bound) = match listener_on(rt, places.as_slice()) {
        Ok(listening) => listening,
        Err(cause) => return Err(BindError::Listen(cause)),
    };
    let chosen = address_chosen(&listener, bound);
    let network = network_with(rt, listener)?;
    match SocketTable::new(rt.alloc(), settings.max_sessions, MOST_CLOSING) {
        Ok(table) => Ok(BoundSockets {
            network,
            chosen,
            servers,
            table,
            pool: Pool::new(rt.alloc()),
        }),
        Err(_) => Err(BindError::Memory),
    }
}

/// Creates the sockets of a run over a network, with these settings and the addresses of the server. Their log lines are
/// written to `errors`. Returns `None` if memory is refused or the listener cannot be followed. No bot is accepted yet,
/// and sessions are not logged.
pub fn sockets_on<'w, N: Network, E: Sink + Drop>(
    alloc: Global,
    settings: &'w Settings,
    resources: (N, &'w [SocketAddr], SocketTable, &'w Pool),
    errors: E,
) -> Option<Sockets<'w, N, E>>
    ensures none_came { IfSome result (λ sockets. (sockets.acceptor.came ≡ 0) × (sockets.is_verbose ≡ false)) }
    ensures none_pending { IfSome result (λ sockets. (pending_connects sockets.arrivals.items ≡ 0)
        × (sockets.closings ≡ no_closing sockets.stall_time)) }
    ensures no_orders { IfSome result (λ sockets. (sockets.control.stops_accepting ≡ false)
        × (sockets.control.stops_now ≡ false)) }
    ensures none_counted { IfSome result (λ sockets. (sockets.counts ≡ no_counts)
        × (sockets.server ≡ untried_at sockets.poller.table.reading)) }
    ensures listens { IfSome result (λ sockets.
        BeginsListening N.transition sockets.poller.table resources.entry.0 sockets.poller.network) }
    ensures im_time { IfSome result (λ sockets. IsSeconds settings.now.im_seconds sockets.im_time) }
    ensures idle_time { IfSome result (λ sockets. IsIdleTime settings.now.idle_seconds sockets.idle_time) }
    ensures stall_time { IfSome result (λ sockets. IsIdleTime settings.now.stall_seconds sockets.stall_time
        × (sockets.stall_seconds ≡ settings.now.stall_seconds)) }
    ensures connect_time { IfSome result (λ sockets. IsSeconds CONNECT_SECONDS sockets.connect_time) }
    ensures room { IfSome result (λ sockets. (length sockets.arrivals.items ≡ settings.now.max_sessions)
        × (length sockets.poller.table.deadlines ≡ length resources.entry.2.deadlines)) }
    ensures rows { AreRowsOf resources.entry.2 [] → IfSome result (λ sockets. AreRowsOf sockets.poller.table
        (closing_keys sockets.closings.streams)) }
{
    Sockets::new(
        alloc,
        resources,
        settings,
        Duration::from_secs(CONNECT_SECONDS),
        errors,
    )
}
