//! The hall, and what is asked through its seats.
ghost use Rattle.std.specs.Prelude.{◌≡◌, ◌-◌, ◌^◌, ◌<◌, ◌&&◌, ◌==◌, true, [], ◌∷◌, ◌++◌, length, drop, map, IfErr, IfOk, OnErr, IsOk};
ghost use Rattle.seat_lock.specs.Lists.{AllOf};
ghost use Rattle.seat_lock.specs.Settled.{AreAllSeats, IsSettled};
ghost use Rattle.seat_lock.specs.Values.{AccountFor, card_of};
ghost use Rattle.troop_entry.specs.declared.call.Call.TheVariants.{Leave};
ghost use Rattle.log_model.specs.Legal.{IsLegal};
ghost use Rattle.log_model.specs.Log.{entries};
ghost use Rattle.log_model.specs.Answers.{answer, is_accepted};
ghost use Rattle.revision_log.specs.Asks.{is_free_ask};
ghost use Rattle.troop_hall.specs.Seats.{IsDeskSeat, IsLater, IsAnswered};
ghost use Rattle.troop_hall.specs.Knowledge.{join_at, known_at};

use crate::known::{Known, entries_from, join_in, known_of};
use revision_log::{Ask, Desk};
use seat_lock::{Hall, SeatOf};
use std::alloc::{AllocError, Global};
use std::marker::Model;
use std::sync::Wait;
use troop_entry::{Call, Entry, Reply};

/// A seat of a hall over a desk.
pub type DeskSeat = SeatOf<Desk>;

/// A desk that threads share, seen as the desk that it was made of. A caller asks it through a seat.
#[derive(Drop)]
pub struct DeskHall {
    hall: Hall<Desk>,
}

impl Model for DeskHall {
    ghost use Rattle.troop_hall.specs.Seats.{DeskHallValue};

    ghost Value = { DeskHallValue };

    ghost view = { λ h. h.hall };
}

impl DeskHall {
    /// A hall over this desk, with its first seat. `Err` is want of memory, and hands the desk back.
    pub fn new(alloc: Global, desk: Desk) -> Result<(DeskHall, DeskSeat), Desk>
        requires { AllOf (λ row. row.seat ≡ 2 ^ 64 - 1) desk }
        ensures hall { IfOk result (λ p. (p.0.first ≡ desk) × IsDeskSeat p.0 p.1) }
        ensures seat { IfOk result (λ p. (p.1.number ≡ 0) × (p.1.index ≡ 0) × (p.1.seen ≡ desk) × (p.1.own ≡ []) × (p.1.made ≡ [])) }
        ensures legal { IsLegal desk }
        ensures memory { IfErr result (λ d. d ≡ desk) }
    {
        let (hall, seat) = Hall::new(alloc, desk)?;
        Ok((DeskHall { hall }, seat))
    }

    /// Makes a further seat, with the next number, which has seen what the first has seen.
    pub fn seat(&self, first: &mut DeskSeat) -> DeskSeat
        requires { IsDeskSeat self.now first.old }
        ensures hall { IsDeskSeat self.now first.new × IsDeskSeat self.now result }
        ensures number { (first.new.number ≡ first.old.number) × (first.new.index ≡ first.old.index) }
        ensures first { (first.new.seen ≡ first.old.seen) × (first.new.own ≡ first.old.own) }
        ensures made { first.new.made ≡ first.old.made ++ result.index ∷ [] }
        ensures new { (result.seen ≡ first.old.seen) × (result.own ≡ []) × (result.made ≡ []) }
        ensures later { first.new.index < result.index }
    {
        self.hall.seat(first)
    }

    /// Looks at the count of rows, and doesn't wait. The seat has then seen so many.
    pub fn look(&self, seat: &mut DeskSeat) -> u64
        requires { IsDeskSeat self.now seat.old }
        ensures hall { IsDeskSeat self.now seat.new × IsLater seat.old seat.new }
        ensures length { result ≡ length seat.new.seen }
        ensures own { seat.new.own ≡ seat.old.own }
        ensures legal { IsLegal seat.new.seen }
    {
        self.hall.look(seat)
    }

    /// Waits for its turn, and asks the desk. `Err` is want of memory, which comes only where the call would be placed, and which
    /// a leave without a number never meets.
    pub fn call<R: Wait>(&self, rt: &R, seat: &mut DeskSeat, ask: &Ask) -> Result<Reply, AllocError>
        requires { IsDeskSeat self.now seat.old }
        ensures hall { IsDeskSeat self.now seat.new × IsLater seat.old seat.new }
        ensures ok { IfOk result (λ reply. IsAnswered ask.now seat.old reply seat.new) }
        ensures memory { OnErr result (seat.new.own ≡ seat.old.own) }
        ensures wanting { OnErr result (is_accepted (answer seat.new.seen ask.now.who ask.now.num ask.now.call) ≡ true) }
        ensures free { is_free_ask ask.now ≡ true → IsOk result }
        ensures legal { IsLegal seat.new.seen }
    {
        self.hall.call(rt, seat, ask)
    }

    /// Waits for its turn, and asks the desk for this performer's leave, without a number. It takes no memory.
    pub fn leave<R: Wait>(&self, rt: &R, seat: &mut DeskSeat, who: u32) -> Reply
        requires { IsDeskSeat self.now seat.old }
        ensures hall { IsDeskSeat self.now seat.new × IsLater seat.old seat.new }
        ensures answered { IsAnswered (record { who = who; num = 0; call = Leave }) seat.old result seat.new }
        ensures legal { IsLegal seat.new.seen }
    {
        let ask = Ask {
            who,
            num: 0,
            call: Call::Leave,
        };
        match self.hall.call(rt, seat, &ask) {
            Ok(reply) => reply,
            Err(_) => unreachable!(),
        }
    }

    /// Waits for its turn, and tells the entries from this position to the end of the log. There are none where it is at the end, or
    /// past it.
    pub fn entries<R: Wait>(
        &self,
        rt: &R,
        seat: &mut DeskSeat,
        start: u64,
    ) -> Result<Vec<Entry>, AllocError>
        requires { IsDeskSeat self.now seat.old }
        ensures hall { IsDeskSeat self.now seat.new × IsLater seat.old seat.new }
        ensures entries { IfOk result (λ found. found.items ≡ drop start (entries seat.new.seen)) }
        ensures wanting { OnErr result (start < length seat.new.seen) }
        ensures fits { length seat.new.seen < 2 ^ 64 }
        ensures own { seat.new.own ≡ seat.old.own }
        ensures legal { IsLegal seat.new.seen }
    {
        self.hall.with(
            rt,
            seat,
            |desk: &Desk| -> Result<Vec<Entry>, AllocError>
                ensures { IfOk result (λ found. found.items ≡ drop start (entries desk.entry.now)) × OnErr result (start < length desk.entry.now) × (length desk.entry.now < 2 ^ 64) }
            { entries_from(desk, start) },
        )
    }

    /// Waits for its turn, and tells what the log knows of this performer. It takes no memory.
    pub fn known<R: Wait>(&self, rt: &R, seat: &mut DeskSeat, who: u32) -> Known
        requires { IsDeskSeat self.now seat.old }
        ensures hall { IsDeskSeat self.now seat.new × IsLater seat.old seat.new }
        ensures known { result ≡ known_at seat.new.seen who }
        ensures own { seat.new.own ≡ seat.old.own }
        ensures legal { IsLegal seat.new.seen }
    {
        self.hall.with(
            rt,
            seat,
            |desk: &Desk| -> Known
                ensures { result ≡ known_at desk.entry.now who }
            { known_of(desk, who) },
        )
    }

    /// Waits for its turn, and tells the position of this performer's join. It takes no memory.
    pub fn join_of<R: Wait>(&self, rt: &R, seat: &mut DeskSeat, who: u32) -> Option<u64>
        requires { IsDeskSeat self.now seat.old }
        ensures hall { IsDeskSeat self.now seat.new × IsLater seat.old seat.new }
        ensures join { result ≡ join_at seat.new.seen who }
        ensures fits { length seat.new.seen < 2 ^ 64 }
        ensures own { seat.new.own ≡ seat.old.own }
        ensures legal { IsLegal seat.new.seen }
    {
        self.hall.with(
            rt,
            seat,
            |desk: &Desk| -> Option<u64>
                ensures { (result ≡ join_at desk.entry.now who) × (length desk.entry.now < 2 ^ 64) }
            { join_in(desk, who) },
        )
    }

    /// Waits until the log has more rows than this, parked on their count, and tells the entries from there on. There is at least
    /// one.
    pub fn wait_past<R: Wait>(
        &self,
        rt: &R,
        seat: &mut DeskSeat,
        start: u64,
    ) -> Result<Vec<Entry>, AllocError>
        requires { IsDeskSeat self.now seat.old }
        ensures hall { IsDeskSeat self.now seat.new × IsLater seat.old seat.new }
        ensures past { start < length seat.new.seen }
        ensures entries { IfOk result (λ found. found.items ≡ drop start (entries seat.new.seen)) }
        ensures some { IfOk result (λ found. 0 < length found.items) }
        ensures fits { length seat.new.seen < 2 ^ 64 }
        ensures own { seat.new.own ≡ seat.old.own }
        ensures legal { IsLegal seat.new.seen }
    {
        self.hall.wait_past(rt, seat, start);
        self.entries(rt, seat, start)
    }

    /// Waits for its turn, takes the desk out, and joins the seats. It needs nothing of seats that were dropped.
    pub fn close<R: Wait>(self, rt: &R, seats: Vec<DeskSeat>) -> Desk
        requires some { 0 < length seats.items }
        requires hall { AllOf (IsDeskSeat self) seats.items }
        ensures settled { IsSettled (λ row. row.seat) self.first result (map card_of seats.items) }
        ensures whole { AreAllSeats (map card_of seats.items) → AccountFor (λ row. row.seat) self.first result seats.items }
        ensures legal { IsLegal result }
    {
        self.hall.close(rt, seats)
    }
}
