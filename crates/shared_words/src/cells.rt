// The shared words, and the calls on them.

ghost use Rattle.std.specs.Prelude.{◌≡◌, ◌<◌, ◌-◌, IfOk, IfErr, Some, replicate, slice_get};
ghost use Rattle.nest_tree.specs.View.{tree_of};
ghost use Rattle.nest_model.specs.Ranges.{IsInRange};
ghost use Rattle.sync_plan.specs.Fit.{IsFit};
ghost use Rattle.sync_plan.specs.Ordered.{IsOrdered};
ghost use Rattle.spmd_model.specs.Laws.{Laws};
ghost use Rattle.shared_words.specs.Calls.{AddsNext, AreAllEnded, ArrivesNext, AwaitsNext, AwaitsSignalNext, GathersNext, IsInMemory, LoadsNext, PollTells, PostsNext, IsEndedSeat, SignalsNext, StoresNext, all_arrivals, arrivals_up_to, first_seat, main_seat, with_stage};
ghost use Rattle.shared_words.specs.Ends.{HasEnded, IsLast};
ghost use Rattle.spmd_model.specs.Timelines.{counter, signal};
ghost use Rattle.spmd_model.specs.declared.style.Style.TheVariants.{Arrive};
ghost use Rattle.shared_words.specs.Homes.{IsSameTable, at_place, gone, loaded_next, main_in, plan_given, protocol_at, seat_in, stored_next, style_given, through, tree_given};
ghost use Rattle.shared_words.specs.Runs.{IsRunnable};
ghost use Rattle.shared_words.specs.Words.{word_of};
ghost use Rattle.shared_words.specs.declared.roles.Stage.{Stage};
ghost use Rattle.shared_words.specs.declared.roles.Stage.TheVariants.{Ended, NotOut, Out};

use crate::closed::{Closed, read_words};
use crate::poll::Poll;
use crate::rule::{Cut, Glue, Go, Learn, Load, Look, LookAround, Rule, Tell, Twin, Which};
use crate::view::{Given, View};
use atomic_table::{Seat, Table};
use nest_tree::Program;
use spmd_model::{Style, arrivals_in_styles, laws_in_styles, loads_in_styles};
use std::alloc::{AllocError, Global};
use std::marker::{Brand, Model};
use std::snapshot::Snapshot;
use sync_plan::Plan;

/// The cells, the counters, the signals and the arrival word of a program under a plan, as words
/// that threads share. Contracts see which table it is, of which program, plan and style, and places
/// that its processors have come to.
#[derive(Drop)]
pub struct Cells<'a> {
    program: &'a Program,
    plan: &'a Plan,
    style: Style,
    // how many cells there are; the counters lie behind them
    cells: u32,
    // where all arrivals are counted
    arrivals: usize,
    table: Table<u8, View, Given<'a>, Rule, Global>,
    // proofs alone: the main seat when its places were made known last
    round: Snapshot<MainSeat>,
}

impl<'a> Model for Cells<'a> {
    ghost use Rattle.std.specs.Prelude.{◌≡◌, Some};
    ghost use Rattle.shared_words.specs.Homes.{Home, IsTableOf};
    ghost use Rattle.shared_words.specs.Codes.{home_code};

    ghost Value = { Home };

    ghost coded = { home_code };

    ghost view = { λ c. record {
      table = c.table.shared.table_id;
      given = Some
          (c.program.now, (c.plan.now, c.style));
      known = c.round.value.home.known;
    } };

    ghost invariant = { λ c. IsTableOf
        (c.program.now, (c.plan.now, c.style)) c.table.shared.table_id c.cells c.arrivals };
}

/// The seat of one processor. Contracts see the processor, how many of its acts are done, its misses,
/// and what the last of them found.
#[derive(Drop)]
pub struct CellSeat {
    seat: Seat<u8, View>,
    processor: u32,
    // how many arrivals there are at barriers once all have arrived as often as it has
    all: u64,
}

impl Model for CellSeat {
    ghost use Rattle.std.specs.Prelude.{◌≡◌, []};
    ghost use Rattle.shared_words.specs.Homes.{CellView, IsSeatOf, cell_view};
    ghost use Rattle.shared_words.specs.Codes.{cell_view_code};

    ghost Value = { CellView };

    ghost coded = { cell_view_code };

    ghost view = { λ s. cell_view s.seat.table_id s.seat.me.0 };

    ghost invariant = { λ s. IsSeatOf s.seat.me.0 s.processor s.all × (s.seat.me.1 ≡ []) };
}

impl CellSeat {
    ghost use Rattle.std.specs.Prelude.{◌≡◌, ◌<◌};
    ghost use Rattle.shared_words.specs.Calls.{all_arrivals as awaited};
    ghost use Rattle.shared_words.specs.Homes.{protocol_at};

    /// Whose seat it is, from 0.
    pub fn processor(&self) -> u32
        ensures processor { result ≡ self.now.processor }
        ensures worker { result < (protocol_at self.now.home).workers }
    {
        self.processor
    }

    /// How many arrivals at barriers there are once all processors have arrived as often as this
    /// seat's has.
    pub fn all_arrivals(&self) -> u64
        ensures { result ≡ awaited self.now }
    {
        self.all
    }
}

/// There was no memory to close the table. Cells and main seat come back.
#[derive(Drop)]
pub struct CloseRefused<'a> {
    pub cells: Cells<'a>,
    pub seat: MainSeat,
}

/// The main seat. Contracts see how far it has come with each processor's seat.
#[derive(Drop)]
pub struct MainSeat {
    seat: Seat<u8, View>,
}

impl Model for MainSeat {
    ghost use Rattle.std.specs.Prelude.{◌≡◌, []};
    ghost use Rattle.shared_words.specs.declared.roles.Role.TheVariants.{Main};
    ghost use Rattle.shared_words.specs.Homes.{MainView, main_view, role_in, stages_of};
    ghost use Rattle.shared_words.specs.Codes.{main_view_code};

    ghost Value = { MainView };

    ghost coded = { main_view_code };

    ghost view = { λ s. main_view s.seat.table_id s.seat.me.0 };

    ghost invariant = { λ s. (role_in s.seat.me.0 ≡ Main (stages_of (role_in s.seat.me.0)))
        × (s.seat.me.1 ≡ []) };
}

impl<'a> Cells<'a> {
    /// The table of a plan whose barriers are passed by arrivals.
    pub fn new(
        alloc: Global,
        program: &'a Program,
        plan: &'a Plan,
    ) -> Result<(Cells<'a>, MainSeat), AllocError>
        requires ranges { IsInRange (tree_of program.now) }
        requires fits { IsFit (tree_of program.now) plan.now }
        requires ordered { IsOrdered (tree_of program.now) plan.now }
        ensures given { IfOk result (λ t. t.0.given ≡ Some (program.now, (plan.now, Arrive))) }
        ensures main { IfOk result (λ t. t.1 ≡ main_seat t.0) }
        ensures known { IfOk result (λ t. t.0.known ≡ replicate plan.now.workers 0) }
    {
        Cells::new_with(alloc, program, plan, Style::Arrive)
    }

    /// All words at 0, and the main seat, with which no processor's seat is out; the plan's
    /// barriers are passed in this style.
    pub fn new_with(
        alloc: Global,
        program: &'a Program,
        plan: &'a Plan,
        style: Style,
    ) -> Result<(Cells<'a>, MainSeat), AllocError>
        requires ranges { IsInRange (tree_of program.now) }
        requires fits { IsFit (tree_of program.now) plan.now }
        requires ordered { IsOrdered (tree_of program.now) plan.now }
        ensures given { IfOk result (λ t. t.0.given ≡ Some (program.now, (plan.now, style))) }
        ensures main { IfOk result (λ t. t.1 ≡ main_seat t.0) }
        ensures known { IfOk result (λ t. t.0.known ≡ replicate plan.now.workers 0) }
    {
        laws_in_styles();
        let cells = program.cell_count() as u32;
        let count = cells as usize + 8 * (plan.workers as usize + 2);
        let zeros = vec![in alloc; 0u64; count]?;
        let given = Given {
            program,
            plan,
            style,
        };
        let (table, seat) = Table::of_words(alloc, zeros.as_slice(), &given)?;
        let main = MainSeat { seat };
        let round = Snapshot::of(&main);
        Ok((
            Cells {
                program,
                plan,
                style,
                cells,
                arrivals: count - 8,
                table,
                round,
            },
            main,
        ))
    }

    /// What holds of the machine that the words show, and of its program and plan; nothing is
    /// done.
    pub fn laws(&self)
        ensures laws { Laws (protocol_at self.now) }
        ensures runnable { IsRunnable (tree_given self.now.given) (plan_given self.now.given) }
    {
        let _cells = self.cells;
    }

    /// How its barriers are passed.
    pub fn style(&self) -> Style
        ensures { result ≡ style_given self.now.given }
    {
        self.style
    }

    /// The end of a table whose processors have all ended.
    pub fn close(self, alloc: Global, main: MainSeat) -> Result<Closed, CloseRefused<'a>>
        requires own { main.home ≡ self }
        requires ended { AreAllEnded main }
        ensures given { IfOk result (λ c. c.given ≡ self.entry.given) }
        ensures ended { IfOk result (λ c. HasEnded c) }
        ensures last { IfOk result (λ c. IsLast c) }
        ensures refused { IfErr result (λ r. (r.cells ≡ self.entry) × (r.seat ≡ main)) }
    {
        let Ok(mut memory) = vec![in alloc; 0i64; self.cells as usize] else {
            return Err(CloseRefused {
                cells: self,
                seat: main,
            });
        };
        let MainSeat { mut seat } = main;
        let over = self.table.shared.split_seat::<Twin>(&mut seat);
        let Cells {
            program: _,
            plan,
            style: _,
            cells: _,
            arrivals: _,
            table,
            round: _,
        } = self;
        let words = table.close_with(over);
        read_words(&words, &mut memory);
        words.free();
        Ok(Closed {
            seat: MainSeat { seat },
            workers: plan.workers,
            memory,
        })
    }

    /// A load, which gives what the sequential program has there.
    pub fn load(&self, seat: &mut CellSeat, cell: u32) -> i64
        requires own { seat.old.home ≡ self.now }
        requires next { LoadsNext seat.old cell }
        ensures value { result ≡ loaded_next seat.old }
        ensures memory { IsInMemory seat.old cell result }
        ensures goes { seat.new ≡ gone seat.old }
    {
        loads_in_styles();
        self.table
            .shared
            .load::<Load>(&mut seat.seat, cell as usize)
            .cast_signed()
    }

    /// A store of the sequential program's value.
    pub fn store(&self, seat: &mut CellSeat, cell: u32, value: i64)
        requires own { seat.old.home ≡ self.now }
        requires next { StoresNext seat.old cell }
        requires value { value ≡ stored_next seat.old }
        ensures goes { seat.new ≡ gone seat.old }
    {
        self.table
            .shared
            .store::<Go>(&mut seat.seat, cell as usize, value.cast_unsigned());
    }

    /// An addition of the processor's total, as the sequential program has it.
    pub fn add(&self, seat: &mut CellSeat, cell: u32, amount: i64)
        requires own { seat.old.home ≡ self.now }
        requires next { AddsNext seat.old cell }
        requires amount { amount ≡ stored_next seat.old }
        ensures goes { seat.new ≡ gone seat.old }
    {
        self.table
            .shared
            .fetch_add::<Go>(&mut seat.seat, cell as usize, amount.cast_unsigned());
    }

    /// A post of the seat's processor, on its own counter.
    pub fn post(&self, seat: &mut CellSeat, number: u64)
        requires own { seat.old.home ≡ self.now }
        requires next { PostsNext seat.old number }
        ensures goes { seat.new ≡ gone seat.old }
    {
        let word = self.counter_word(seat.processor);
        self.table.shared.store::<Go>(&mut seat.seat, word, number);
    }

    /// A look at the counter of processor `q`.
    pub fn poll(&self, seat: &mut CellSeat, q: u32, number: u64) -> Poll
        requires own { seat.old.home ≡ self.now }
        requires next { AwaitsNext seat.old q number }
        ensures { PollTells seat.old (gone seat.old) number result seat.new }
    {
        let word = self.counter_word(q);
        let seen = self.table.shared.load::<Look>(&mut seat.seat, word);
        if number <= seen {
            Poll::Ready
        } else {
            Poll::NotYet { seen }
        }
    }

    /// The seat's processor sets its own signal.
    pub fn signal(&self, seat: &mut CellSeat, number: u64)
        requires own { seat.old.home ≡ self.now }
        requires next { SignalsNext seat.old number }
        ensures goes { seat.new ≡ gone seat.old }
    {
        let word = self.signal_word(seat.processor);
        self.table.shared.store::<Go>(&mut seat.seat, word, number);
    }

    /// A look at the signal of processor `q`.
    pub fn poll_signal(&self, seat: &mut CellSeat, q: u32, number: u64) -> Poll
        requires own { seat.old.home ≡ self.now }
        requires next { AwaitsSignalNext seat.old q number }
        ensures { PollTells seat.old (gone seat.old) number result seat.new }
    {
        let word = self.signal_word(q);
        let found = self.table.shared.load::<Look>(&mut seat.seat, word);
        if number <= found {
            Poll::Ready
        } else {
            Poll::NotYet { seen: found }
        }
    }

    /// The seat's processor arrives at the barrier in front of phase number `e`: a post of e - 1.
    pub fn arrive(&self, seat: &mut CellSeat, e: u64)
        requires own { seat.old.home ≡ self.now }
        requires next { ArrivesNext seat.old (e - 1) }
        ensures goes { seat.new ≡ gone seat.old }
    {
        self.table
            .shared
            .fetch_add::<Go>(&mut seat.seat, self.arrivals, 1);
        seat.all += u64::from(self.plan.workers);
    }

    /// A look at all arrivals, at the barrier in front of phase number `e`.
    pub fn poll_arrivals(&self, seat: &mut CellSeat, e: u64) -> Poll
        requires own { seat.old.home ≡ self.now }
        requires next { GathersNext seat.old (e - 1) }
        ensures tells { PollTells seat.old (through seat.old)
            (all_arrivals seat.old) result seat.new }
        ensures wanted { all_arrivals seat.old ≡ arrivals_up_to self.now e }
    {
        arrivals_in_styles();
        let arrived = self
            .table
            .shared
            .load::<LookAround>(&mut seat.seat, self.arrivals);
        if seat.all <= arrived {
            Poll::Ready
        } else {
            Poll::NotYet { seen: arrived }
        }
    }

    fn cut<J: Which>(&self, main: &mut MainSeat, p: u32) -> CellSeat
        requires own { main.old.home ≡ self.now }
        requires idle { slice_get main.old.stages p ≡ Some NotOut }
        requires worker { p < (protocol_at self.now).workers }
        requires which { p ≡ J.which }
        ensures seat { result ≡ first_seat self.now p }
        ensures main { main.new ≡ with_stage p Out main.old }
    {
        CellSeat {
            seat: self.table.shared.split_seat::<Cut<J>>(&mut main.seat),
            processor: p,
            all: 0,
        }
    }

    /// The seat of processor `p`, at its first act.
    pub fn seat_for(&self, main: &mut MainSeat, p: u32) -> CellSeat
        requires own { main.old.home ≡ self.now }
        requires idle { slice_get main.old.stages p ≡ Some NotOut }
        requires worker { p < (protocol_at self.now).workers }
        ensures seat { result ≡ first_seat self.now p }
        ensures main { main.new ≡ with_stage p Out main.old }
    {
        self.cut::<Brand>(main, p)
    }

    /// The seat of a processor that has ended is taken in.
    pub fn take_in(&self, main: &mut MainSeat, seat: CellSeat)
        requires own { main.old.home ≡ self.now }
        requires seat { seat.home ≡ self.now }
        requires ended { IsEndedSeat seat }
        ensures main { main.new ≡ with_stage seat.processor Ended main.old }
    {
        let CellSeat {
            seat,
            processor: _,
            all: _,
        } = seat;
        self.table.shared.join_seat::<Glue>(&mut main.seat, seat);
    }

    /// The main seat and a processor's tell each other the places that they know, and the main seat
    /// learns where the processor is.
    pub fn note(&self, main: &mut MainSeat, seat: &mut CellSeat)
        requires main { IsSameTable main.old.home self.now }
        requires seat { IsSameTable seat.old.home self.now }
        ensures main { main.new
            ≡ main_in (at_place seat.old.processor seat.old.position main.old.home) main.old }
        ensures seat { seat.new ≡ seat_in main.new.home seat.old }
    {
        let news = self.table.shared.split_seat::<Tell>(&mut main.seat);
        self.table.shared.join_seat::<Learn>(&mut seat.seat, news);
        let place = self.table.shared.split_seat::<Tell>(&mut seat.seat);
        self.table.shared.join_seat::<Learn>(&mut main.seat, place);
    }

    /// The places that the main seat knows are those of the table: so a poll in vain was so at them.
    pub fn renew(&mut self, main: &MainSeat)
        requires main { IsSameTable main.now.home self.old }
        ensures { self.new ≡ main.now.home }
    {
        self.round = Snapshot::of(main);
    }

    // Where the counter of this processor lies.
    fn counter_word(&self, p: u32) -> usize
        ensures { result ≡ word_of (protocol_at self.now) counter p }
    {
        self.cells as usize + 8 * (p as usize + 1)
    }

    // Where its signal lies.
    fn signal_word(&self, p: u32) -> usize
        ensures { result ≡ word_of (protocol_at self.now) signal p }
    {
        self.cells as usize + 8 * (p as usize + 1) + 1
    }
}
