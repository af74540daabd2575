//! A lent machine that is synchronised, and its runs.
ghost use Rattle.std.specs.Prelude.{◌≡◌, ◌+◌, ◌-◌, ◌≤◌, ◌<◌, None, IfOk, IfSome, OnOk, Ok};
ghost use Rattle.std.proofs.Props.{props};
ghost use Rattle.outside_io.specs.Causes.{HasCause};
ghost use Rattle.outside_io.specs.Sink.{Takes};
ghost use Rattle.cpu_core.specs.Places.{IsMiddle};
ghost use Rattle.cpu_table.specs.Opcodes.{row_of};
ghost use Rattle.lockstep_board.specs.Breaks.{BreakRun, turn};
ghost use Rattle.lockstep_board.specs.Budget.{budget};
ghost use Rattle.catchup_engine.specs.Calls.{CanRunTo, Settles};
ghost use Rattle.catchup_engine.specs.EngineValue.{counted_on};
ghost use Rattle.lockstep_board.specs.Order.{HasNoRecords, cleared, records_of};
ghost use Rattle.lockstep_board.specs.Lockstep as lockstep;
ghost use Rattle.lockstep_board.specs.Run.{cause_of, to_boundary, window_limit, wrap_of};
ghost use Rattle.catchup_engine.specs.StopConditions.{stops_at};
ghost use Rattle.catchup_engine.specs.Traced.{TracedRun};
ghost use Rattle.lockstep_board.specs.Peripherals.{reloaded};
ghost use Rattle.run_windows.specs.Synced.{IsSynced};
ghost use Rattle.run_windows.specs.Windows.{EndsSo, clock_in, end_of, price_to, window_end, window_steps};

use crate::record_observer::RecordObserver;
use crate::turn_observer::TurnObserver;
use crate::until::Until;
use board_base::{BoardState, CLOCK_LIMIT};
use catchup_engine::{Machine, Stop, StopConditions};
use outside_io::{Sink, SinkFault};
use tape_ports::Tape;

/// A lent machine that is synchronised between any two calls: no device lags behind its processor,
/// and it keeps no record.
#[derive(Drop)]
pub struct SyncedMachine<'a, M: Machine> {
    machine: &'a mut M,
    ghost is_synced: { IsSynced (M.value machine.now) } by { Prim.hlevel props },
}

/// Takes on another board, and leaves the machine synchronised.
fn load_synced<M: Machine>(machine: &mut M, state: &BoardState)
    requires synced { IsSynced (M.value machine.old) }
    requires undocumented { IfSome state.now.cpu.jam (λ o. row_of o ≡ None) }
    requires place { IfSome state.now.cpu.mid (λ _. IsMiddle state.now.cpu) }
    ensures value { M.value machine.new ≡ record (M.value machine.old) {
      board = record { cpu = state.now.cpu; peripherals = reloaded (M.value machine.old).board.peripherals state.now };
      calls = counted_on (M.value machine.old).calls 5;
    } }
    ensures synced { IsSynced (M.value machine.new) }
{
    machine.load(state);
    machine.lemma_range();
}

/// Moves each device to the present clock, and returns it.
fn settle<M: Machine>(machine: &mut M) -> u64
    ensures settles { Settles (M.value machine.old) (M.value machine.new) }
    ensures clock { result ≡ (M.value machine.old).board.peripherals.clock }
{
    machine.settle();
    machine.clock()
}

/// Forgets the records of a settled machine, and leaves it synchronised.
fn forget_records<M: Machine>(machine: &mut M)
    requires settled { (M.value machine.old).lagging ≡ 0 }
    ensures value { M.value machine.new ≡ record (M.value machine.old) { board = cleared (M.value machine.old).board } }
    ensures synced { IsSynced (M.value machine.new) }
{
    machine.clear_trails();
    machine.lemma_range();
}

/// Runs the board to the end of a run, or to the first boundary after the divider's next wrap where
/// that comes first.
#[tactic(auto, unfolding(lockstep_board::specs::Run::to_boundary, lockstep_board::specs::Run::to_cut))]
fn advance<M: Machine>(machine: &mut M, tape: &Tape, until: Until) -> Stop
    requires ready { CanRunTo (clock_in until) (M.value machine.old) }
    ensures board { (M.value machine.new).board ≡ window_end tape.now.entries until (M.value machine.old).board }
    ensures stop { result ≡ cause_of (clock_in until) (M.value machine.new).board }
    ensures ends { EndsSo until (M.value machine.new).board }
    ensures wrap { result ≡ Stop.Window → wrap_of (M.value machine.old).board ≤ (M.value machine.new).board.peripherals.clock }
    ensures later { result ≡ Stop.Window → (M.value machine.old).board.peripherals.clock < (M.value machine.new).board.peripherals.clock }
    ensures before { result ≡ Stop.Window → (M.value machine.new).board.peripherals.clock < clock_in until }
    ensures calls { (M.value machine.new).calls ≤ (M.value machine.old).calls + budget tape.now.entries (window_steps tape.now.entries until (M.value machine.old).board) (M.value machine.old).board }
    ensures more { (M.value machine.old).calls ≤ (M.value machine.new).calls }
    ensures done { (M.value machine.new).done ≡ counted_on (M.value machine.old).done ((M.value machine.new).board.peripherals.clock - (M.value machine.old).board.peripherals.clock) }
{
    match until {
        Until::Clock(cut) => machine.run_to(tape, cut),
        Until::Boundary(limit) => machine.run(tape, limit),
    }
}

impl<'a, M: Machine> SyncedMachine<'a, M> {
    ghost use Rattle.run_windows.specs.SyncedMachine.{loan_of, value_of};

    /// A machine that is settled and has no records.
    pub fn of(machine: &'a mut M) -> SyncedMachine<'a, M>
        requires settled { (M.value machine.old).lagging ≡ 0 }
        requires empty { HasNoRecords (M.value machine.old).board }
        ensures same { loan_of result ≡ machine.entry.ghost_name }
        ensures value { value_of result ≡ M.value machine.old }
    {
        machine.lemma_range();
        SyncedMachine { machine }
    }

    /// The machine, to be read.
    pub fn machine(&self) -> &M
        ensures value { M.value result.now ≡ value_of self.now }
        ensures synced { IsSynced (M.value result.now) }
    {
        self.machine
    }

    /// Takes on another board over the same image. Five device calls.
    pub fn load(&mut self, state: &BoardState)
        requires undocumented { IfSome state.now.cpu.jam (λ o. row_of o ≡ None) }
        requires place { IfSome state.now.cpu.mid (λ _. IsMiddle state.now.cpu) }
        ensures same { loan_of self.new ≡ loan_of self.old }
        ensures value { value_of self.new ≡ record (value_of self.old) {
          board = record { cpu = state.now.cpu; peripherals = reloaded (value_of self.old).board.peripherals state.now };
          calls = counted_on (value_of self.old).calls 5;
        } }
    {
        load_synced(self.machine, state);
    }

    /// Runs up to the end of a window, the first one of `watch`, and hands its records to an
    /// observer. `Window` says that the run isn't over. After a fault the machine is synchronised
    /// too, and the observer is only to be dropped.
    pub fn window<W: RecordObserver, O: Sink>(
        &mut self,
        tape: &Tape,
        until: Until,
        observer: &mut W,
        out: &mut O,
    ) -> Result<Stop, SinkFault>
        requires limit { clock_in until ≤ CLOCK_LIMIT }
        requires room { let there = window_end tape.now.entries until (value_of self.old).board in
            W.can_take observer.old (value_of self.old).board.peripherals.clock (records_of there) there.peripherals.clock }
        ensures same { loan_of self.new ≡ loan_of self.old }
        ensures taken { let there = window_end tape.now.entries until (value_of self.old).board in
            Takes (O.taken out.old) (O.taken out.new) (W.writes observer.old (records_of there) there.peripherals.clock) result }
        ensures cause { HasCause (O.faults out.old) (O.faults out.new) result }
        ensures next { let there = window_end tape.now.entries until (value_of self.old).board in
            OnOk result (observer.new ≡ W.next observer.old (records_of there) there.peripherals.clock) }
        ensures board { (value_of self.new).board ≡ cleared (window_end tape.now.entries until (value_of self.old).board) }
        ensures stop { IfOk result (λ stop. stop ≡ cause_of (clock_in until) (value_of self.new).board) }
        ensures ends { EndsSo until (value_of self.new).board }
        ensures wrap { result ≡ Ok Stop.Window → wrap_of (value_of self.old).board ≤ (value_of self.new).board.peripherals.clock }
        ensures later { result ≡ Ok Stop.Window → (value_of self.old).board.peripherals.clock < (value_of self.new).board.peripherals.clock }
        ensures before { result ≡ Ok Stop.Window → (value_of self.new).board.peripherals.clock < clock_in until }
        ensures calls { (value_of self.new).calls ≤ (value_of self.old).calls
            + budget tape.now.entries (window_steps tape.now.entries until (value_of self.old).board) (value_of self.old).board + 5 }
        ensures more { (value_of self.old).calls ≤ (value_of self.new).calls }
        ensures done { (value_of self.new).done
            ≡ counted_on (value_of self.old).done ((value_of self.new).board.peripherals.clock - (value_of self.old).board.peripherals.clock) }
    {
        let stop = advance(self.machine, tape, until);
        let upto = settle(self.machine);
        let taken = observer.take(&self.machine.trails(), upto, out);
        forget_records(self.machine);
        taken?;
        Ok(stop)
    }

    /// Runs to a clock or to a boundary, window by window, and hands the records of each window to
    /// an observer. A window ends with the run, or at the first boundary after the divider's next
    /// wrap. After a fault the machine is synchronised too, and the observer is only to be dropped.
    pub fn watch<W: RecordObserver, O: Sink>(
        &mut self,
        tape: &Tape,
        until: Until,
        observer: &mut W,
        out: &mut O,
    ) -> Result<Stop, SinkFault>
        requires limit { clock_in until ≤ CLOCK_LIMIT }
        requires room { let last = end_of tape.now.entries until (value_of self.old).board in
            W.can_take observer.old (value_of self.old).board.peripherals.clock (records_of last) last.peripherals.clock }
        ensures same { loan_of self.new ≡ loan_of self.old }
        ensures taken { let last = end_of tape.now.entries until (value_of self.old).board in
            Takes (O.taken out.old) (O.taken out.new) (W.writes observer.old (records_of last) last.peripherals.clock) result }
        ensures cause { HasCause (O.faults out.old) (O.faults out.new) result }
        ensures next { let last = end_of tape.now.entries until (value_of self.old).board in
            OnOk result (observer.new ≡ W.next observer.old (records_of last) last.peripherals.clock) }
        ensures board { OnOk result ((value_of self.new).board ≡ cleared (end_of tape.now.entries until (value_of self.old).board)) }
        ensures stop { IfOk result (λ stop. stop ≡ cause_of (clock_in until) (value_of self.new).board) }
        ensures calls { (value_of self.new).calls ≤ (value_of self.old).calls + price_to tape.now.entries until (value_of self.old).board + 5 }
        ensures more { (value_of self.old).calls ≤ (value_of self.new).calls }
        ensures done { (value_of self.new).done + (value_of self.old).board.peripherals.clock
            ≤ (value_of self.old).done + (value_of self.new).board.peripherals.clock }
    {
        'windows: loop {
            match self.window(tape, until, observer, out)? {
                Stop::Window => {}
                stop => return Ok(stop),
            }
        }
    }

    /// Runs turn by turn, passes each to an observer, and hands it their records: up to the limit,
    /// to the end of a window, or to where it has enough.
    fn part<F: TurnObserver, O: Sink>(
        &mut self,
        tape: &Tape,
        limit: u64,
        observer: &mut F,
        out: &mut O,
    ) -> Result<Stop, SinkFault>
        requires limit { limit ≤ CLOCK_LIMIT }
        requires room { F.can_follow observer.old tape.now.entries limit (value_of self.old).board }
        ensures same { loan_of self.new ≡ loan_of self.old }
        ensures part { (c : lockstep.Board) × (v : F) × TracedRun F.next F.has_enough tape.now.entries (window_limit limit (value_of self.old).board) (value_of self.old).board c observer.old v
            × Takes (O.taken out.old) (O.taken out.new) (F.part_writes v (records_of c)) result
            × OnOk result (observer.new ≡ F.after_part v (records_of c))
            × ((value_of self.new).board ≡ cleared c) }
        ensures cause { HasCause (O.faults out.old) (O.faults out.new) result }
        ensures boundary { (value_of self.new).board.cpu.mid ≡ None }
        ensures stop { IfOk result (λ stop. stop ≡ cause_of limit (value_of self.new).board) }
    {
        let stop = self.machine.run_traced(tape, limit, observer);
        self.machine.settle();
        let handed = observer.take_part(&self.machine.trails(), out);
        forget_records(self.machine);
        handed?;
        Ok(stop)
    }

    /// Runs to a boundary, and passes each turn and all records to an observer. After a fault the
    /// machine is synchronised too, and the observer is only to be dropped.
    pub fn follow<F: TurnObserver, O: Sink>(
        &mut self,
        tape: &Tape,
        limit: u64,
        observer: &mut F,
        out: &mut O,
    ) -> Result<Stop, SinkFault>
        requires limit { limit ≤ CLOCK_LIMIT }
        requires room { F.can_follow observer.old tape.now.entries limit (value_of self.old).board }
        ensures same { loan_of self.new ≡ loan_of self.old }
        ensures taken { Takes (O.taken out.old) (O.taken out.new) (F.writes observer.old tape.now.entries limit (value_of self.old).board) result }
        ensures cause { HasCause (O.faults out.old) (O.faults out.new) result }
        ensures next { OnOk result (observer.new ≡ F.after_run observer.old tape.now.entries limit (value_of self.old).board) }
        ensures board { OnOk result ((value_of self.new).board ≡ cleared (to_boundary tape.now.entries limit (value_of self.old).board)) }
        ensures stop { IfOk result (λ stop. stop ≡ cause_of limit (value_of self.new).board) }
    {
        'parts: loop {
            match self.part(tape, limit, observer, out)? {
                Stop::Window => {}
                stop => return Ok(stop),
            }
        }
    }

    /// Makes one turn, what is left of the sequence under way or else one instruction or sequence,
    /// and forgets its records.
    pub fn turn(&mut self, tape: &Tape)
        requires clock { (value_of self.old).board.peripherals.clock < CLOCK_LIMIT }
        ensures same { loan_of self.new ≡ loan_of self.old }
        ensures board { (value_of self.new).board ≡ cleared (turn tape.now.entries (value_of self.old).board) }
        ensures later { (value_of self.old).board.cpu.jam ≡ None → (value_of self.old).board.peripherals.clock < (value_of self.new).board.peripherals.clock }
    {
        let _stop = self.machine.step(tape);
        self.machine.settle();
        forget_records(self.machine);
    }

    /// Makes the turns up to a limit, or up to the end of a window where that comes first, and
    /// forgets their records.
    pub fn turns(&mut self, tape: &Tape, limit: u64)
        requires limit { limit ≤ CLOCK_LIMIT }
        requires before { (value_of self.old).board.peripherals.clock < limit }
        ensures same { loan_of self.new ≡ loan_of self.old }
        ensures board { (value_of self.new).board
            ≡ cleared (to_boundary tape.now.entries (window_limit limit (value_of self.old).board) (value_of self.old).board) }
        ensures later { (value_of self.new).board.cpu.jam ≡ None → (value_of self.old).board.peripherals.clock < (value_of self.new).board.peripherals.clock }
    {
        let _stop = self.machine.run(tape, limit);
        self.machine.settle();
        forget_records(self.machine);
    }

    /// Makes some turns, one at least, up to a limit, to where they stop, or to the end of a
    /// window, and forgets their records.
    pub fn turns_to_stop(&mut self, tape: &Tape, limit: u64, stops: &StopConditions<'_>)
        requires limit { limit ≤ CLOCK_LIMIT }
        requires before { (value_of self.old).board.peripherals.clock < limit }
        ensures same { loan_of self.new ≡ loan_of self.old }
        ensures board { (c : lockstep.Board) × BreakRun tape.now.entries limit (stops_at stops.now) (value_of self.old).board c
            × ((value_of self.new).board ≡ cleared c) }
        ensures later { (value_of self.old).board.cpu.jam ≡ None → (value_of self.old).board.peripherals.clock < (value_of self.new).board.peripherals.clock }
    {
        self.machine.run_to_stop(tape, limit, stops);
        self.machine.settle();
        forget_records(self.machine);
    }
}
