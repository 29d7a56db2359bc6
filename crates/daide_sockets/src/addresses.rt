//! The addresses of the settings: what the system knows of their names, a listener at one of them, and a trial of both.
//!
//! The operating system decides which addresses a name has, where a listener can be, and who answers a connect.

ghost use Rattle.std.specs.Prelude.{◌≡◌, ◌≢◌, IfErr, IfOk, Contains};
ghost use Rattle.std.specs.IoError.{error_kind};
ghost use Rattle.daide_sockets.specs.Addresses.{AreAddressesOf, IsLookUpFault, IsNumeric, IsTriedAt};

use crate::bound_sockets::CONNECT_SECONDS;
use mio::net::TcpListener;
use std::alloc::{AllocError, Global};
use std::io;
use std::io::ErrorKind;
use std::net::{Net, SocketAddr, TcpStream, ToSocketAddrs};
use std::rt::Clock;
use std::time::{Duration, Instant};
use thiserror::Error;

/// Why an address of the settings is of no use.
#[derive(Clone, Copy, Debug, Error)]
pub enum AddressFault {
    /// The system knows no address of its host.
    #[error("unknown name")]
    Unknown,
    /// The server was silent for the time that a connect may take.
    #[error("no answer within {seconds} s", seconds = CONNECT_SECONDS)]
    Silent,
    /// The system refused it, for this reason.
    #[error("{0}")]
    Refused(ErrorKind),
}

/// Returns the fault of an error of the system.
fn refused(error: io::Error) -> AddressFault
    ensures { result ≡ AddressFault.Refused (error_kind error) }
{
    AddressFault::Refused(error.kind())
}

/// Returns the addresses that the system knows of a host; none if its name is unknown. Fails only if memory is refused.
fn resolved<R: Net>(alloc: Global, net: &R, address: &str) -> Result<Vec<SocketAddr>, AllocError> {
    match address.to_socket_addrs(net) {
        Ok(found) => found.collect(alloc),
        Err(error) if error.kind() == ErrorKind::OutOfMemory => Err(AllocError),
        Err(_) => Ok(Vec::new(alloc)),
    }
}

/// Returns an address in digits alone; otherwise those of its host.
fn addresses_of<R: Net>(
    alloc: Global,
    net: &R,
    address: &str,
) -> Result<Vec<SocketAddr>, AllocError>
    ensures { IfOk result (λ all. IsNumeric address.now → AreAddressesOf address.now all.items) }
{
    match address.parse::<SocketAddr>() {
        Ok(own) => Vec::from_slice(alloc, &[own]),
        Err(_) => resolved(alloc, net, address),
    }
}

/// Returns the addresses of an address's host, at least one. An address in digits is its own, and is not looked up.
///
/// Fails with `Unknown` if the system knows none. Fails with `Refused` if memory is refused.
pub(crate) fn looked_up<R: Net>(
    alloc: Global,
    net: &R,
    address: &str,
) -> Result<Vec<SocketAddr>, AddressFault>
    ensures found { IfOk result (λ all. AreAddressesOf address.now all.items) }
    ensures fault { IfErr result (IsLookUpFault address.now) }
{
    match addresses_of(alloc, net, address) {
        Ok(all) if all.is_empty() => Err(AddressFault::Unknown),
        Ok(all) => Ok(all),
        Err(_) => Err(AddressFault::Refused(ErrorKind::OutOfMemory)),
    }
}

/// Listens at the first of these addresses at which that is possible. Returns the listener and that address. Fails with
/// the error of the last address; `NotFound` if there is none.
pub(crate) fn listener_on<R: Net>(
    net: &R,
    addresses: &[SocketAddr],
) -> Result<(TcpListener, SocketAddr), ErrorKind>
    ensures { IfOk result (λ bound. Contains addresses.now bound.1) }
{
    let mut cause = ErrorKind::NotFound;
    for address in addresses {
        match TcpListener::bind(net, *address) {
            Ok(listener) => return Ok((listener, *address)),
            Err(error) => cause = error.kind(),
        }
    }
    Err(cause)
}

/// Listens once at an address as a run does, and closes the listener. Returns the address at which it was.
pub fn try_listen<R: AllocGlobal + Net>(rt: &R, address: &str) -> Result<SocketAddr, AddressFault>
    ensures { IsTriedAt address.now result }
{
    let addresses = looked_up(rt.alloc(), rt, address)?;
    match listener_on(rt, addresses.as_slice()) {
        Ok((_listener, bound)) => Ok(bound),
        Err(cause) => Err(AddressFault::Refused(cause)),
    }
}

/// Connects to an address, with what is left of the time of a connect that began then, and closes the connection.
fn connect_since<R: Clock + Net>(
    rt: &R,
    begun: Instant,
    address: SocketAddr,
) -> Result<(), AddressFault>
    ensures { IfErr result (λ fault. fault ≢ AddressFault.Unknown) }
{
    let passed = begun.elapsed(rt).map_err(refused)?;
    let left = Duration::from_secs(CONNECT_SECONDS).saturating_sub(passed);
    if left.is_zero() {
        return Err(AddressFault::Silent);
    }
    match TcpStream::connect_timeout(rt, &address, left) {
        Ok(_stream) => Ok(()),
        Err(error) if error.kind() == ErrorKind::TimedOut => Err(AddressFault::Silent),
        Err(error) => Err(refused(error)),
    }
}

/// Connects once to an address: to those of its host in turn, within the time of a run's connect for all. Closes the
/// connection, and returns the address to which it was.
pub fn try_connect<R: AllocGlobal + Clock + Net>(
    rt: &R,
    address: &str,
) -> Result<SocketAddr, AddressFault>
    ensures { IsTriedAt address.now result }
{
    let addresses = looked_up(rt.alloc(), rt, address)?;
    let begun = Instant::now(rt).map_err(refused)?;
    let mut cause = AddressFault::Silent;
    for place in &addresses {
        match connect_since(rt, begun, *place) {
            Ok(()) => return Ok(*place),
            Err(fault) => cause = fault,
        }
    }
    Err(cause)
}
