//! The system of a run: its sockets, and the folder with a record of each session, if sessions are recorded. The ports of
//! each session record their calls if it has a record.

ghost use Rattle.std.specs.Prelude.{◌≡◌};
ghost use Rattle.daide_sockets.specs.Finishing.{FinishesAll};
ghost use Rattle.daide_sockets.specs.Scheduling.{RunEvolves, run_state};
ghost use Rattle.daide_run.specs.Folder.{CallRecords, folder_head, record_events};

use crate::broken_records::BrokenRecords;
use crate::folder::{Folder, SessionFile};
use crate::notices::NoticeLog;
use daide_io::duplex::Duplex;
use daide_io::{Connect, Network, Notice, Orders, ReadyQueue, SessionEnd, SessionStatus, System};
use daide_log::{Moment, Recording, Sink};
use daide_protocol::account::Account;
use daide_sockets::ports::SocketPorts;
use daide_sockets::system::Sockets;
use std::alloc::Allocator;
use std::io::Write;
use std::rt::{Clock, Files};
use std::time::{SystemTime, UNIX_EPOCH};

/// Returns the present moment by the system's clock; `None` if it can't be read.
fn moment_by<C: Clock>(clock: &C) -> Option<Moment> {
    let now = SystemTime::now(clock).ok()?;
    let since = now.duration_since(UNIX_EPOCH).ok()?;
    Moment::from_millisecond(u64::try_from(since.as_millis()).ok()?)
}

/// Returns the number of the session with these ports.
fn number_of<S: Duplex + Drop, W: Sink + Drop>(ports: &Recording<SocketPorts<'_, S>, W>) -> u32
    ensures { result ≡ ports.now.ports.identity.number }
{
    ports.ports().identity().number
}

/// The sockets of a run, the folder of its records, if sessions are recorded, and the clock that gives their times.
///
/// Not said: that the times of a record are readings of this clock. A scene of tests/records.py compares them.
#[derive(Drop)]
pub(crate) struct RecordedSockets<
    's,
    'w,
    'f,
    N: Network,
    R: AllocGlobal + Files,
    C: Clock,
    E: NoticeLog + Sink + Drop,
> {
    sockets: &'s mut Sockets<'w, N, E>,
    folder: Option<&'f Folder<'f, R>>,
    clock: &'f C,
    /// When the round began; `None` without a folder, since only records have times.
    now: Option<Moment>,
    /// The records that broke off and were reported.
    broken: BrokenRecords<E>,
}

impl<
    's,
    'w,
    'f,
    N: Network,
    R: AllocGlobal + Files,
    C: Clock,
    E: NoticeLog + Sink + Drop,
> RecordedSockets<'s, 'w, 'f, N, R, C, E> {
    /// Makes a system over these sockets. A folder has a record of each session, if there is a folder.
    pub fn new(
        sockets: &'s mut Sockets<'w, N, E>,
        folder: Option<&'f Folder<'f, R>>,
        clock: &'f C,
    ) -> RecordedSockets<'s, 'w, 'f, N, R, C, E>
        ensures sockets { result.sockets ≡ sockets.entry }
        ensures folder { result.folder ≡ folder.entry }
    {
        RecordedSockets {
            sockets,
            folder,
            clock,
            now: None,
            broken: BrokenRecords::none(),
        }
    }

    /// Returns the present moment, if sessions are recorded.
    fn moment(&self) -> Option<Moment> {
        self.folder?;
        moment_by(self.clock)
    }

    /// Waits until the last sockets are closed. The closing sockets are advanced by rounds, each of which polls the network.
    pub fn finish(&mut self)
        ensures { FinishesAll N.transition N.Connection.to_give N.Connection.taken N.Connection.calls u64.MAX
            self.old.sockets.now.poller.network self.old.sockets.now.poller.table.reading
            self.old.sockets.now.closings self.new.sockets.now.closings }
    {
        self.sockets.finish();
    }
}

impl<'w, N: Network, R: AllocGlobal + Files, C: Clock, E: NoticeLog + Sink + Drop> System<
    Recording<SocketPorts<'w, N::Connection>, SessionFile<R::File>>,
> for RecordedSockets<'_, 'w, '_, N, R, C, E> {
    ghost transition = { λ old call new. RunEvolves N.transition N.Connection.to_give N.Connection.taken
        N.Connection.calls (λ ports. ports.ports)
        (run_state (old.sockets.now.poller.network, old.sockets.now.poller.table) (old.sockets.now.idle_time, old.sockets.now.stall_time)
        old.sockets.now.acceptor old.sockets.now.arrivals.items old.sockets.now.closings old.sockets.now.control) call
        (run_state (new.sockets.now.poller.network, new.sockets.now.poller.table) (new.sockets.now.idle_time, new.sockets.now.stall_time)
        new.sockets.now.acceptor new.sockets.now.arrivals.items new.sockets.now.closings new.sockets.now.control)
        × CallRecords (record_events ⟦<SessionFile<R::File> as Write>⟧.contents ⟦<SessionFile<R::File> as Sink>⟧.Fails
        E.Reported) (folder_head old.folder) call
        × (new.folder ≡ old.folder) };

    /// The times that are recorded until the next poll are that of this one.
    fn poll<A: Allocator>(&mut self, may_block: bool, ready: &mut ReadyQueue<A>) -> Orders {
        let orders = self.sockets.poll(may_block, ready);
        self.now = self.moment();
        orders
    }

    fn show(
        &mut self,
        ports: &Recording<SocketPorts<'w, N::Connection>, SessionFile<R::File>>,
        status: SessionStatus,
    ) {
        self.sockets.show(ports.ports(), status);
    }

    fn begin_turn(
        &mut self,
        place: usize,
        account: &Account,
        ports: &mut Recording<SocketPorts<'w, N::Connection>, SessionFile<R::File>>,
    ) {
        let session = (place, number_of(ports));
        self.broken.report(session, ports, &mut self.sockets.errors);
        ports.begin_turn(place, account, self.sockets, self.now);
    }

    /// A record may also break off in a turn that makes no progress, since it is written then.
    fn rest(
        &mut self,
        place: usize,
        ports: &Recording<SocketPorts<'w, N::Connection>, SessionFile<R::File>>,
    ) -> bool {
        let number = number_of(ports);
        let errors = &mut self.sockets.errors;
        self.broken.report((place, number), ports, errors);
        self.sockets.rest(place, ports.ports())
    }

    fn accept(&mut self, place: usize) -> bool {
        self.sockets.accept(place)
    }

    fn connected(
        &mut self,
        place: usize,
    ) -> Connect<Recording<SocketPorts<'w, N::Connection>, SessionFile<R::File>>> {
        match self.sockets.connected(place) {
            Connect::Ready(ports) => {
                let bot = ports.identity();
                let session = (bot.number, Some(bot.address));
                let Some(folder) = self.folder else {
                    return Connect::Ready(Recording::new(ports, None, None));
                };
                let errors = &mut self.sockets.errors;
                Connect::Ready(folder.begin(session, ports, self.now, errors))
            }
            Connect::Failed => Connect::Failed,
            Connect::Pending => Connect::Pending,
        }
    }

    fn retire(
        &mut self,
        place: usize,
        ports: Recording<SocketPorts<'w, N::Connection>, SessionFile<R::File>>,
        end_of: SessionEnd,
    ) {
        let session = (place, number_of(&ports));
        let ports = self.broken.close(session, ports, &mut self.sockets.errors);
        self.sockets.retire(place, ports, end_of);
    }

    fn log(&mut self, notice: Notice) {
        self.sockets.log(notice);
    }
}
