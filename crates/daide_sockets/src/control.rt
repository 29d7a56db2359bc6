//! The control socket of a run: its listener, and at most eight connections. Of these at most four are stops that wait, beside
//! those that end all sessions.
//!
//! They are read and written at each poll, each once, so no session waits for them. The next poll watches them.

ghost use Rattle.std.specs.Prelude.{◌≡◌, ◌≢◌, ◌<◌, ◌≤◌, ◌+◌, ◌-◌, ◌&&◌, not, if◌then◌else◌, Bool, List, Option, [], length, false, true, IfOk, IfSome, IsSome, None, Some};
ghost use Rattle.daide_io.specs.Network.{ListensForControl};
ghost use Rattle.daide_sockets.specs.Snapshot.{seconds_between, or_zero};
ghost use Rattle.daide_sockets.specs.Control.{gathers_at, is_end, is_end_of, stops_run, stops_run_now};
ghost use Rattle.daide_sockets.specs.ControlAnswer.{ordered_by};
ghost use Rattle.daide_sockets.specs.ControlSlots.{Each, at_some, at_place, IsControlRow, PlaceAdvances, PlacesAdvance, PlaceShows};
ghost use Rattle.daide_sockets.specs.ControlSlots.{are_places_free, has_free, is_control_due, with_one, arming_place, arming_places};
ghost use Rattle.daide_sockets.specs.ControlSlots.{AsksControl, BringsControl, arming_control, arming_listener, BeginsRound};
ghost use Rattle.daide_sockets.specs.ControlSlots.{is_listener_due, is_waiting, room_beside, most_waiting, ends_session, ends_some};
ghost use Rattle.daide_sockets.specs.KeptRows.{ChangesRows};
ghost use Rattle.daide_sockets.specs.declared.present.Bot.{Bot};
ghost use Rattle.daide_sockets.specs.Table.{Table, control_key, report_at};
ghost use Rattle.daide_sockets.specs.Wakeups.{GoesBy, is_after_poll};

use crate::control_connection::{ControlConnection, RoundView};
use crate::control_request::RequestedStop;
use crate::listener::Listener;
use crate::poller::Poller;
use crate::present::Present;
use crate::table::{SocketTable, either};
use daide_io::duplex::Duplex;
use daide_io::network::Network;
use daide_io::system::Orders;
use daide_status::{RunStatus, SessionRow};
use std::alloc::{AllocError, Global};
use std::io::ErrorKind;
use std::marker::Model;
use std::time::{Duration, Instant};

/// The most control connections at once. Further ones wait in the system's queue.
pub const MOST_CONTROLS: usize = 8;

/// The most stops that wait at once. The other places are left to short requests.
const MOST_WAITING: usize = 4;

/// The descriptors that must be free for an accept: one for the connection. An accept of a bot leaves one.
const CONTROL_DESCRIPTORS: usize = 1;

/// The number of seconds after which a control connection is closed.
const CONTROL_SECONDS: u64 = 2;

/// Returns the whole seconds from one moment until another; `None` without one of them.
pub(crate) fn seconds_between(moment: Option<Instant>, later: Option<Instant>) -> Option<u64>
    ensures { result ≡ seconds_between moment later }
{
    match (moment, later) {
        (Some(moment), Some(later)) => Some(later.saturating_duration_since(moment).as_secs()),
        _ => None,
    }
}

/// Returns whether the stop of a place's connection waits.
fn waits_in<S: Duplex + Drop>(place: &Option<ControlConnection<S>>) -> bool
    ensures { result ≡ at_place is_waiting place.now }
{
    match place {
        Some(connection) => connection.waits(),
        None => false,
    }
}

/// Returns how many more stops may wait, of this many, beside those of these places.
fn room_beside<S: Duplex + Drop>(room: usize, places: &[Option<ControlConnection<S>>]) -> usize
    ensures { result ≡ room_beside room places.now }
{
    let Some((place, rest)) = places.split_first() else {
        return room;
    };
    let left = if waits_in(place) {
        room.saturating_sub(1)
    } else {
        room
    };
    room_beside(left, rest)
}

/// Advances the connection of a place, which has the row with this key, and frees the place if it is closed.
fn advance_place<S: Duplex + Drop>(
    place: &mut Option<ControlConnection<S>>,
    key: usize,
    table: &mut SocketTable,
    view: RoundView<'_>,
    has_room: bool,
)
    ensures advances { PlaceAdvances S.to_give S.taken S.calls view.entry.run.now view.entry.present.now.bots.items has_room table.old.reading
        (report_at table.old key) place.old place.new }
    ensures table { ChangesRows (λ row. row ≡ key) table.old table.new }
{
    let Some(connection) = place else {
        return;
    };
    let report = table.take_report(key);
    connection.note_report(report);
    if connection.advance(view, has_room, table.now()) {
        return;
    }
    *place = None;
}

/// Returns how many more stops may wait, of this many, after a place: one less if its stop waits from now on.
fn room_after(room: usize, waited: bool, waits: bool) -> usize
    ensures { result ≡ (if not waited && waits then room - 1 else room) }
{
    if !waited & waits {
        room.saturating_sub(1)
    } else {
        room
    }
}

/// Advances the connections of these places, the first of which has this number. This many more stops may wait.
fn advance_all<S: Duplex + Drop>(
    places: &mut [Option<ControlConnection<S>>],
    number: usize,
    room: usize,
    table: &mut SocketTable,
    view: RoundView<'_>,
)
    requires { number + length places.old ≤ MOST_CONTROLS }
    ensures advances { PlacesAdvance S.to_give S.taken S.calls view.entry.run.now view.entry.present.now.bots.items table.old number room
        places.old places.new }
    ensures table { ChangesRows (IsControlRow table.old) table.old table.new }
    ensures listener { report_at table.new (control_key table.old) ≡ report_at table.old (control_key table.old) }
{
    let Some((place, rest)) = places.split_first_mut() else {
        return;
    };
    let waited = waits_in(place);
    let key = table.control_connection_key(number);
    advance_place(place, key, table, view, room > 0);
    let left = room_after(room, waited, waits_in(place));
    advance_all(rest, number + 1, left, table, view);
}

/// Shows the row of a session to each connection of these places that gathers a status.
fn show_all<S: Duplex + Drop>(places: &mut [Option<ControlConnection<S>>], row: &SessionRow)
    ensures { Each (PlaceShows row.now) places.old places.new }
{
    let Some((place, rest)) = places.split_first_mut() else {
        return;
    };
    show_at(place, row);
    show_all(rest, row);
}

/// Shows the row of a session to the connection of a place.
fn show_at<S: Duplex + Drop>(place: &mut Option<ControlConnection<S>>, row: &SessionRow)
    ensures { PlaceShows row.now place.old place.new }
{
    if let Some(connection) = place {
        connection.show(row);
    }
}

/// Has the next poll watch the connections of these places.
fn arm_all<S: Duplex + Drop>(places: &[Option<ControlConnection<S>>], table: &mut SocketTable)
    ensures { table.new ≡ arming_places table.old places.now }
{
    let Some((place, rest)) = places.split_first() else {
        return;
    };
    if let Some(connection) = place {
        table.arm(connection.has_work(), connection.due());
    }
    arm_all(rest, table);
}

/// What the connections request together.
#[derive(Clone, Copy)]
struct Requested {
    /// That the run is stopped.
    stops: bool,
    /// That its sessions end now.
    stops_now: bool,
    /// A status, whose rows are gathered.
    gathers: bool,
}

/// Returns what the connections of these places request.
fn requested_by<S: Duplex + Drop>(places: &[Option<ControlConnection<S>>]) -> Requested
    ensures stops { result.stops ≡ at_some (λ connection. stops_run (ordered_by connection.answer)) places.now }
    ensures at_once { result.stops_now ≡ at_some (λ connection. stops_run_now (ordered_by connection.answer)) places.now }
    ensures gathers { result.gathers ≡ at_some (λ connection. gathers_at connection.stage) places.now }
{
    let Some((place, rest)) = places.split_first() else {
        return Requested {
            stops: false,
            stops_now: false,
            gathers: false,
        };
    };
    let others = requested_by(rest);
    let Some(connection) = place else {
        return others;
    };
    let order = connection.order();
    Requested {
        stops: matches!(order, Some(RequestedStop::Finish | RequestedStop::Now)) | others.stops,
        stops_now: matches!(order, Some(RequestedStop::Now)) | others.stops_now,
        gathers: connection.gathers() | others.gathers,
    }
}

/// Returns whether a connection of these places ordered the end of the session with this number.
fn ends_in<S: Duplex + Drop>(places: &[Option<ControlConnection<S>>], number: u32) -> bool
    ensures { result ≡ at_some (λ connection. is_end_of number (ordered_by connection.answer)) places.now }
{
    let Some((place, rest)) = places.split_first() else {
        return false;
    };
    let ends = match place {
        Some(connection) => {
            matches!(connection.order(), Some(RequestedStop::Session(ended)) if ended == number)
        }
        None => false,
    };
    ends || ends_in(rest, number)
}

/// Returns whether a connection of these places ordered the end of a session.
fn ends_any<S: Duplex + Drop>(places: &[Option<ControlConnection<S>>]) -> bool
    ensures { result ≡ at_some (λ connection. is_end (ordered_by connection.answer)) places.now }
{
    let Some((place, rest)) = places.split_first() else {
        return false;
    };
    let ends = match place {
        Some(connection) => matches!(connection.order(), Some(RequestedStop::Session(_))),
        None => false,
    };
    ends || ends_any(rest)
}

/// Returns whether a place is free.
fn has_free<S: Duplex + Drop>(places: &[Option<ControlConnection<S>>]) -> bool
    ensures { result ≡ has_free places.now }
{
    let Some((place, rest)) = places.split_first() else {
        return false;
    };
    place.is_none() || has_free(rest)
}

/// Returns the number of the first free place, from 0; that of all places if none is free.
fn first_free<S: Duplex + Drop>(places: &[Option<ControlConnection<S>>]) -> usize
    ensures free { has_free places.now ≡ true → result < length places.now }
    ensures few { result ≤ length places.now }
{
    let Some((place, rest)) = places.split_first() else {
        return 0;
    };
    if place.is_none() {
        0
    } else {
        1 + first_free(rest)
    }
}

/// Returns whether all places are free.
fn are_places_free<S: Duplex + Drop>(places: &[Option<ControlConnection<S>>]) -> bool
    ensures { result ≡ are_places_free places.now }
{
    let Some((place, rest)) = places.split_first() else {
        return true;
    };
    place.is_none() && are_places_free(rest)
}

/// Puts a connection to the first of these places that is free, if there is one.
fn put_first<S: Duplex + Drop>(
    places: &mut [Option<ControlConnection<S>>],
    connection: ControlConnection<S>,
)
    ensures { places.new ≡ with_one connection places.old }
{
    let Some((place, rest)) = places.split_first_mut() else {
        return;
    };
    if place.is_none() {
        *place = Some(connection);
    } else {
        put_first(rest, connection);
    }
}

/// The places of the control connections, of which there are `MOST_CONTROLS`.
#[derive(Drop)]
struct Slots<S: Duplex + Drop> {
    places: Vec<Option<ControlConnection<S>>>,
}

impl<S: Duplex + Drop> Model for Slots<S> {
    ghost use Rattle.std.specs.Prelude.{◌≡◌, List, Option, vec_len};
    ghost use Rattle.daide_sockets.specs.declared.control_connection.ControlConnection.{ControlConnection};

    ghost Value = { List (Option (ControlConnection S)) };

    ghost view = { λ c. c.places.items };

    ghost invariant = { λ c. vec_len c.places ≡ 8 };
}

impl<S: Duplex + Drop> Slots<S> {
    /// Creates free places. Fails if their memory is refused.
    fn new(alloc: Global) -> Result<Slots<S>, AllocError>
        ensures { IfOk result (λ slots. are_places_free slots ≡ true) }
    {
        let mut places = Vec::with_capacity(alloc, MOST_CONTROLS)?;
        for _place in 0..MOST_CONTROLS {
            places.push_reserved(None);
        }
        Ok(Slots { places })
    }

    /// Returns the places.
    fn as_slice(&self) -> &[Option<ControlConnection<S>>]
        ensures { result.now ≡ self.now }
    {
        self.places.as_slice()
    }

    /// Returns whether a place is free.
    fn has_room(&self) -> bool
        ensures { result ≡ has_free self.now }
    {
        has_free(self.places.as_slice())
    }

    /// Returns the number of the first free place, from 0.
    fn first_free(&self) -> usize
        ensures { has_free self.now ≡ true → result < MOST_CONTROLS }
    {
        first_free(self.places.as_slice())
    }

    /// Advances each connection.
    fn advance(&mut self, table: &mut SocketTable, view: RoundView<'_>)
        ensures advances { PlacesAdvance S.to_give S.taken S.calls view.entry.run.now view.entry.present.now.bots.items table.old 0
            (room_beside most_waiting self.old) self.old self.new }
        ensures table { ChangesRows (IsControlRow table.old) table.old table.new }
        ensures listener { report_at table.new (control_key table.old) ≡ report_at table.old (control_key table.old) }
    {
        let room = room_beside(MOST_WAITING, self.places.as_slice());
        advance_all(self.places.as_mut_slice(), 0, room, table, view);
    }

    /// Shows the row of a session to each connection that gathers a status.
    fn show(&mut self, row: &SessionRow)
        ensures { Each (PlaceShows row.now) self.old self.new }
    {
        show_all(self.places.as_mut_slice(), row);
    }

    /// Puts a connection to the first free place, if there is one.
    fn put(&mut self, connection: ControlConnection<S>)
        ensures { self.new ≡ with_one connection self.old }
    {
        put_first(self.places.as_mut_slice(), connection);
    }
}

/// Accepts a connection, has it followed under this key, and returns it. Returns `None` if there is none, if a descriptor is
/// missing, or if the system refuses. Makes no call if the listener is not ready, or during the pause after a refusal.
fn accept_from<N: Network>(
    listener: &mut Listener,
    poller: &mut Poller<N>,
    key: usize,
) -> Option<N::Connection>
    requires { IsControlRow poller.old.table key }
    ensures made { is_control_due poller.old.table listener.old ≡ true →
        BringsControl N.transition key poller.old.network poller.new.network result }
    ensures not_made { is_control_due poller.old.table listener.old ≡ false →
        (result ≡ None) × (listener.new ≡ listener.old) × (poller.new ≡ poller.old) }
    ensures calls { GoesBy is_after_poll N.transition poller.old.network poller.new.network }
    ensures table { ChangesRows (IsControlRow poller.old.table) poller.old.table poller.new.table }
{
    let own = poller.table.control_key();
    if !listener.is_due(&poller.table, own) {
        return None;
    }
    if let Err(error) = poller.network.check_descriptors(CONTROL_DESCRIPTORS) {
        listener.note_accept(&mut poller.table, own, Some(error.kind()));
        return None;
    }
    let mut connection = match poller.network.accept_control() {
        Ok(connection) => connection,
        Err(error) => {
            listener.note_accept(&mut poller.table, own, Some(error.kind()));
            return None;
        }
    };
    listener.note_accept(&mut poller.table, own, None);
    if !poller.follow(&mut connection, key) {
        listener.pause(poller.table.now(), ErrorKind::Other);
        return None;
    }
    Some(connection)
}

/// The control socket of a run.
///
/// An operator's stop is remembered: `stops_accepting` and `stops_now` stay once they are given.
#[derive(Drop)]
pub struct Control<S: Duplex + Drop> {
    alloc: Global,
    /// `None` if the run has no control socket.
    listener: Option<Listener>,
    slots: Slots<S>,
    /// Whether a stop was requested.
    stops_accepting: bool,
    /// Whether it was requested that sessions end now.
    stops_now: bool,
    /// The reading of the clock when the run began; `None` if it could not be read.
    started_at: Option<Instant>,
}

/// Has the listener of the control socket followed, if the network has one. Returns `None` if the system refuses.
fn listener_of<N: Network>(poller: &mut Poller<N>) -> Option<Option<Listener>>
    ensures table { poller.new.table ≡ poller.old.table }
    ensures listens { IsSome result → (is_followed : Option Bool) × (is_followed ≢ Some false)
        × N.transition poller.old.network (ListensForControl (control_key poller.old.table) is_followed)
        poller.new.network }
{
    let key = poller.table.control_key();
    match poller.network.listen_for_control(key) {
        Some(true) => Some(Some(Listener::new())),
        Some(false) => None,
        None => Some(None),
    }
}

/// Returns true only if no accept is due, and the next poll has nothing to watch for the listener.
fn listener_rests(listener: &Option<Listener>, table: &SocketTable) -> bool
    ensures not_due { result ≡ true → is_listener_due table.now listener.now ≡ false }
    ensures armed { result ≡ true → table.now ≡ arming_listener table.now true listener.now }
{
    match listener {
        Some(listener) => listener.rests(table, table.control_key()),
        None => true,
    }
}

impl<S: Duplex + Drop> Control<S> {
    /// Creates the control socket of a run over a network, if that has a listener for it. No stop was requested yet.
    /// Returns `None` if memory is refused, or if the listener cannot be followed.
    pub(crate) fn new<N: Network<Connection = S>>(
        alloc: Global,
        poller: &mut Poller<N>,
    ) -> Option<Control<S>>
        ensures no_orders { IfSome result (λ control. (control.stops_accepting ≡ false) × (control.stops_now ≡ false)) }
        ensures free { IfSome result (λ control. are_places_free control.slots ≡ true) }
        ensures listens { IsSome result → (is_followed : Option Bool) × (is_followed ≢ Some false)
            × N.transition poller.old.network (ListensForControl (control_key poller.old.table) is_followed)
            poller.new.network }
        ensures table { poller.new.table ≡ poller.old.table }
    {
        let Ok(slots) = Slots::new(alloc) else {
            return None;
        };
        let listener = listener_of(poller)?;
        Some(Control {
            alloc,
            listener,
            slots,
            stops_accepting: false,
            stops_now: false,
            started_at: poller.table.now(),
        })
    }

    /// Accepts a connection, if a place is free and one waits.
    fn accept<N: Network<Connection = S>>(&mut self, poller: &mut Poller<N>)
        ensures accepts { AsksControl N.transition poller.old.table self.old.listener poller.old.network poller.new.network
            self.old.slots self.new.slots }
        ensures same { (self.new.stops_accepting ≡ self.old.stops_accepting) × (self.new.stops_now ≡ self.old.stops_now)
            × (self.new.started_at ≡ self.old.started_at) }
        ensures calls { GoesBy is_after_poll N.transition poller.old.network poller.new.network }
        ensures table { ChangesRows (IsControlRow poller.old.table) poller.old.table poller.new.table }
    {
        let Some(listener) = &mut self.listener else {
            return;
        };
        if !self.slots.has_room() {
            return;
        }
        let key = poller.table.control_connection_key(self.slots.first_free());
        let Some(stream) = accept_from(listener, poller, key) else {
            return;
        };
        let closes_at = poller.table.after(Duration::from_secs(CONTROL_SECONDS));
        self.slots.put(ControlConnection::new(stream, closes_at));
    }

    /// Has the next poll watch each connection, and the listener if a place is free.
    pub(crate) fn arm(&self, table: &mut SocketTable)
        ensures { table.new ≡ arming_control table.old self.now }
    {
        if let Some(listener) = &self.listener {
            if self.slots.has_room() {
                let is_due = listener.is_due(table, table.control_key());
                table.arm(is_due, listener.resumes_at);
            }
        }
        arm_all(self.slots.as_slice(), table);
    }

    /// Returns true only if a round has nothing to do for the control socket: there is no connection, no accept is due,
    /// and the next poll has nothing to watch for it.
    pub(crate) fn is_at_rest(&self, table: &SocketTable) -> bool
        ensures free { result ≡ true → are_places_free self.now.slots ≡ true }
        ensures not_due { result ≡ true → is_listener_due table.now self.now.listener ≡ false }
        ensures armed { result ≡ true → table.now ≡ arming_control table.now self.now }
    {
        listener_rests(&self.listener, table) && are_places_free(self.slots.as_slice())
    }

    /// Returns the orders of a round in which there is no connection, and none is accepted. They need no status of the run.
    pub(crate) fn orders_at_rest<N: Network<Connection = S>>(&self, poller: &Poller<N>) -> Orders
        requires free { are_places_free self.now.slots ≡ true }
        requires not_due { is_listener_due poller.now.table self.now.listener ≡ false }
        ensures control { (run : RunStatus) → (bots : List Bot) → BeginsRound N.transition S.to_give S.taken S.calls run bots
            poller.now.table poller.now.network self.now result poller.now.network self.now }
        ensures stops { result.stops_accepting ≡ self.now.stops_accepting }
    {
        Orders {
            stops_accepting: self.stops_accepting,
            shows_sessions: false,
        }
    }

    /// Begins a round by the table, with the status of the run and the bots that are there, and returns the operator's orders.
    ///
    /// `control`: each connection is read or written once. Then exactly one is accepted if that is due and a place is free, which
    /// it takes, followed by the network. A stop of the run is ordered from the round on in which a connection is answered by it,
    /// and stays so. Sessions are shown if a connection gathers a status (`BeginsRound`). Four stops wait at most.
    pub(crate) fn begin_round<N: Network<Connection = S>>(
        &mut self,
        poller: &mut Poller<N>,
        run: &RunStatus,
        present: &Present,
    ) -> Orders
        ensures control { BeginsRound N.transition S.to_give S.taken S.calls run.now present.now.bots.items poller.old.table
            poller.old.network self.old result poller.new.network self.new }
        ensures calls { GoesBy is_after_poll N.transition poller.old.network poller.new.network }
        ensures kept { self.old.stops_accepting ≡ true → self.new.stops_accepting ≡ true }
        ensures now_kept { self.old.stops_now ≡ true → self.new.stops_now ≡ true }
        ensures table { ChangesRows (IsControlRow poller.old.table) poller.old.table poller.new.table }
    {
        let view = RoundView {
            alloc: self.alloc,
            run,
            present,
        };
        self.slots.advance(&mut poller.table, view);
        self.accept(poller);
        let requested = requested_by(self.slots.as_slice());
        self.stops_accepting = either(self.stops_accepting, requested.stops);
        self.stops_now = either(self.stops_now, requested.stops_now);
        Orders {
            stops_accepting: self.stops_accepting,
            shows_sessions: requested.gathers,
        }
    }

    /// Shows the row of a session to each connection that gathers a status.
    pub(crate) fn show(&mut self, row: &SessionRow)
        ensures shows { Each (PlaceShows row.now) self.old.slots self.new.slots }
        ensures same { self.new ≡ record self.old { slots = self.new.slots } }
    {
        self.slots.show(row);
    }

    /// Returns whether a stop was requested.
    pub(crate) fn stops_accepting(&self) -> bool
        ensures { result ≡ self.now.stops_accepting }
    {
        self.stops_accepting
    }

    /// Returns whether it was requested that sessions end now.
    pub(crate) fn stops_now(&self) -> bool
        ensures { result ≡ self.now.stops_now }
    {
        self.stops_now
    }

    /// Returns whether the end of the session with this number is ordered: a connection that requested it waits for it.
    pub(crate) fn ends_session(&self, number: u32) -> bool
        ensures { result ≡ ends_session self.now number }
    {
        ends_in(self.slots.as_slice(), number)
    }

    /// Returns whether the end of some session is ordered.
    pub(crate) fn ends_some(&self) -> bool
        ensures { result ≡ ends_some self.now }
    {
        ends_any(self.slots.as_slice())
    }

    /// Returns the seconds from the beginning of the run to this reading of the clock; 0 without a reading.
    pub(crate) fn seconds(&self, now: Option<Instant>) -> u64
        ensures { result ≡ or_zero (seconds_between self.now.started_at now) }
    {
        seconds_between(self.started_at, now).unwrap_or(0)
    }
}
