// What is told of a plan, in words.

use crate::page::Page;
use comm_system::Obligation;
use plan_maker::cause::Word;
use plan_maker::tries::Tried;
use plan_text::put_kind;
use reason_witness::account::{About, Reason, Why};
use reason_witness::found::{Finding, Found, Wanted};
use reason_witness::meeting::{Meeting, Touch, Witness};
use std::alloc::{AllocError, Global};
use sync_plan::Kind;

/// Words, as they stand. It has no clause: what the text has is not followed.
pub(crate) fn push_words(text: &mut Vec<u8>, words: &[u8]) -> Result<(), AllocError> {
    text.extend_from_slice(words)
}

// A number, in decimals.
fn push_number(text: &mut Vec<u8>, number: i128) -> Result<(), AllocError> {
    let mut buffer = itoa::Buffer::new();
    push_words(text, buffer.format(number).as_bytes())
}

/// A word, and a number in decimals.
pub(crate) fn push_part(text: &mut Vec<u8>, word: &[u8], number: i128) -> Result<(), AllocError> {
    push_words(text, word)?;
    push_number(text, number)
}

// How elimination answered, as far as that is known.
fn word_of(reason: &Reason) -> Word {
    match &reason.wanted {
        Wanted::Named(cause) => cause.word,
        Wanted::First | Wanted::Number(_) => Word::Open,
    }
}

// Why the maker kept what has a certificate, by its word.
fn unseen_words(word: Word) -> &'static [u8] {
    match word {
        Word::Open | Word::Wide | Word::Many | Word::Work => {
            b"; elimination's order doesn't see it".as_slice()
        }
        Word::Spent => b"; the plan's limit of 800,000 pairs of rows was used up before",
    }
}

// How elimination left an obligation for which nothing is found.
fn answer_words(word: Word) -> &'static [u8] {
    match word {
        Word::Open => b": elimination leaves it open".as_slice(),
        Word::Wide => b": numbers of elimination grow too large",
        Word::Many => b": rows of elimination grow too many",
        Word::Work => b": elimination gave up after 65,536 pairs of rows",
        Word::Spent => b": the plan's limit of 800,000 pairs of rows was used up before",
    }
}

// Whether all wait for all.
fn is_barrier(kind: &Kind) -> bool {
    matches!(kind, Kind::Barrier | Kind::Join)
}

// How many phases have one in front.
fn barriers(kinds: &[Kind]) -> u32 {
    let mut count = 0u32;
    for kind in kinds {
        if is_barrier(kind) {
            count = count.saturating_add(1);
        }
    }
    count
}

// How many phases wait for neighbours, and how many for one processor.
fn push_waits(text: &mut Vec<u8>, kinds: &[Kind]) -> Result<(), AllocError> {
    let mut neighbours = 0u32;
    let mut producers = 0u32;
    for kind in kinds {
        match kind {
            Kind::Nothing | Kind::Barrier | Kind::Join => {}
            Kind::Producer(_) => producers = producers.saturating_add(1),
            _ => neighbours = neighbours.saturating_add(1),
        }
    }
    push_part(text, b"; waits for neighbours: ", i128::from(neighbours))?;
    push_part(text, b", for one processor: ", i128::from(producers))
}

// The processors that producers in between name, each once.
fn push_producers(text: &mut Vec<u8>, producers: &[i128]) -> Result<(), AllocError> {
    let [first, ..] = producers else {
        return Ok(());
    };
    let is_one = producers.iter().all(|it| *it == *first);
    let mut word = if is_one {
        b"; processor ".as_slice()
    } else {
        b"; processors "
    };
    for (place, producer) in producers.iter().enumerate() {
        if !producers.iter().take(place).any(|it| *it == *producer) {
            push_part(text, word, *producer)?;
            word = b" and ";
        }
    }
    if is_one {
        push_words(text, b" is waited for in between")
    } else {
        push_words(text, b" are waited for in between")
    }
}

// With which cells of its own each processor was to run a loop.
fn tried_words(tried: Tried) -> &'static [u8] {
    match tried {
        Tried::Doall => b"",
        Tried::Private => b" with private scalars",
        Tried::Sum => b" with sums",
    }
}

impl Page<'_> {
    /// The text. An error says that memory ran out.
    pub(crate) fn text(&self, alloc: Global) -> Result<Vec<u8>, AllocError> {
        let mut text = Vec::new(alloc);
        self.push_summary(&mut text)?;
        let mut phase = 0;
        for (place, reason) in self.account.reasons.iter().enumerate() {
            if let About::Weaker(number, _) = &reason.about {
                if *number != phase {
                    phase = *number;
                    self.push_phase(&mut text, phase)?;
                }
            }
            self.push_reason(&mut text, place, reason)?;
        }
        Ok(text)
    }

    // One line: how many phases there are, who waits in front of them, and which loops are serial.
    fn push_summary(&self, text: &mut Vec<u8>) -> Result<(), AllocError> {
        push_number(text, self.lines.len() as i128)?;
        push_words(text, b" phases")?;
        let kinds = self.account.plan.kinds.as_slice();
        let mut word = b"; barriers in front of lines ".as_slice();
        match barriers(kinds) {
            0 => push_words(text, b"; no barrier")?,
            1 => word = b"; a barrier in front of line ",
            _ => {}
        }
        for (kind, line) in kinds.iter().zip(self.lines) {
            if is_barrier(kind) {
                push_part(text, word, i128::from(*line))?;
                word = b", ";
            }
        }
        push_waits(text, kinds)?;
        self.push_serial_loops(text)?;
        push_words(text, b"\n")?;
        Ok(())
    }

    // The loops that aren't dealt out, each with what is in the way.
    fn push_serial_loops(&self, text: &mut Vec<u8>) -> Result<(), AllocError> {
        let mut word = b"; loops not dealt out: ".as_slice();
        for reason in &self.account.reasons {
            if let About::Loop(number, Tried::Doall) = &reason.about {
                push_words(text, word)?;
                self.push_loop(text, *number)?;
                match &reason.why {
                    Why::Print => push_words(text, b" (PRINT)")?,
                    Why::Found(found) => {
                        push_words(text, b" (")?;
                        push_words(text, self.name_of(found.obligation.variable))?;
                        push_words(text, b")")?;
                    }
                    Why::Certified | Why::Unfit(_) => {}
                }
                word = b", ";
            }
        }
        Ok(())
    }

    // A loop by its number, from 1: its variable and its line.
    fn push_loop(&self, text: &mut Vec<u8>, number: u32) -> Result<(), AllocError> {
        match self.loop_at(number) {
            Some(it) => {
                push_words(text, it.variable.as_slice())?;
                push_part(text, b" in line ", i128::from(it.line))
            }
            None => push_part(text, b"loop ", i128::from(number)),
        }
    }

    // Whom each processor waits for in front of a static phase, by its number from 1.
    fn push_phase(&self, text: &mut Vec<u8>, phase: u32) -> Result<(), AllocError> {
        push_part(text, b"PHASE ", i128::from(phase))?;
        push_part(text, b", line ", i128::from(self.line_of(phase)))?;
        push_words(text, b": each processor waits for ")?;
        if let Some(kind) = self.account.plan.kind(phase) {
            self.push_awaited(text, kind)?;
            push_words(text, b",")?;
            put_kind(text, kind)?;
        }
        if self.has_enough(phase) {
            push_words(text, b". At least one of those tried is enough:\n")
        } else {
            push_words(text, b". None of those tried is enough:\n")
        }
    }

    // Whether something weaker than the wait in front of a static phase is enough.
    fn has_enough(&self, phase: u32) -> bool {
        for reason in &self.account.reasons {
            if matches!(&reason.about, About::Weaker(number, _) if *number == phase)
                && matches!(&reason.why, Why::Certified)
                && matches!(&reason.wanted, Wanted::First)
            {
                return true;
            }
        }
        false
    }

    // A reason, on a line of its own behind its head.
    fn push_reason(
        &self,
        text: &mut Vec<u8>,
        place: usize,
        reason: &Reason,
    ) -> Result<(), AllocError> {
        match &reason.about {
            About::Loop(number, tried) => {
                push_part(text, b"LOOP ", i128::from(*number))?;
                push_words(text, b", ")?;
                self.push_loop(text, *number)?;
                push_words(text, b", is not dealt out")?;
                push_words(text, tried_words(*tried))?;
                push_words(text, b":\n    ")?;
            }
            About::Weaker(_, kind) => {
                push_words(text, b"   ")?;
                put_kind(text, kind)?;
                push_words(text, b", for ")?;
                self.push_awaited(text, kind)?;
                push_words(text, b": ")?;
            }
            About::Refused(number) => {
                push_part(text, b"REFUSED FOR OBLIGATION ", i128::from(*number))?;
                if let Why::Found(found) = &reason.why {
                    push_words(text, b": ")?;
                    self.push_obligation(text, &found.obligation)?;
                }
                push_words(text, b"\n    ")?;
            }
        }
        self.push_why(text, place, reason)?;
        push_words(text, b"\n")?;
        Ok(())
    }

    // The lines, the variable, the level and the piece of an obligation.
    fn push_obligation(&self, text: &mut Vec<u8>, o: &Obligation) -> Result<(), AllocError> {
        push_part(text, b"lines ", i128::from(o.lines.0))?;
        push_part(text, b" and ", i128::from(o.lines.1))?;
        push_words(text, b", ")?;
        push_words(text, self.name_of(o.variable))?;
        push_part(text, b", level ", i128::from(o.level))?;
        push_part(text, b", piece ", i128::from(o.piece))
    }

    // What a reason is, without a line's end.
    fn push_why(
        &self,
        text: &mut Vec<u8>,
        place: usize,
        reason: &Reason,
    ) -> Result<(), AllocError> {
        match &reason.why {
            Why::Print => push_words(text, b"a PRINT stands in it"),
            Why::Found(found) => match &found.finding {
                Finding::Solved(_, Witness::Meeting(meeting)) => {
                    self.push_meeting(text, place, meeting)
                }
                Finding::Solved(_, Witness::ZeroTrip(loops)) => {
                    self.push_zero_trip(text, &found.obligation, loops)
                }
                Finding::Refuted | Finding::Unknown => {
                    self.push_unmet(text, found, word_of(reason))
                }
            },
            Why::Certified => match &reason.wanted {
                Wanted::Named(cause) => {
                    self.push_certified(text, cause.lines)?;
                    push_words(text, unseen_words(cause.word))
                }
                Wanted::First | Wanted::Number(_) => push_words(
                    text,
                    b"nothing is in its way: each obligation has a certificate",
                ),
            },
            Why::Unfit(_) => push_words(text, b"nothing is known of it"),
        }
    }

    // What is found of an obligation but a witness; elimination's answer is the word.
    fn push_unmet(&self, text: &mut Vec<u8>, found: &Found, word: Word) -> Result<(), AllocError> {
        let lines = found.obligation.lines;
        if matches!(&found.finding, Finding::Refuted) {
            self.push_certified(text, lines)?;
            return push_words(
                text,
                b": a certificate exists, and the plan has no good one",
            );
        }
        self.push_obligation(text, &found.obligation)?;
        push_words(text, answer_words(word))?;
        push_words(text, b", and neither a certificate nor ")?;
        push_words(
            text,
            if self.is_loop_line(lines.0) {
                b"a case without a trip is".as_slice()
            } else {
                b"two iterations are"
            },
        )?;
        push_words(text, b" found within the budget")
    }

    // That what an obligation of these lines speaks of never comes.
    fn push_certified(&self, text: &mut Vec<u8>, lines: (u32, u32)) -> Result<(), AllocError> {
        if !self.is_loop_line(lines.0) {
            return push_words(text, b"no two iterations meet");
        }
        push_part(text, b"line ", i128::from(lines.0))?;
        push_words(text, b"'s loop always makes a trip")
    }

    // That a loop round a private scalar's first store may make no trip, where those outside it have
    // these values.
    fn push_zero_trip(
        &self,
        text: &mut Vec<u8>,
        o: &Obligation,
        loops: &[(u32, i128)],
    ) -> Result<(), AllocError> {
        push_part(text, b"line ", i128::from(o.lines.0))?;
        push_words(text, b"'s loop may make no trip")?;
        self.push_values(text, loops)?;
        push_words(text, b", and ")?;
        push_words(text, self.name_of(o.variable))?;
        push_part(text, b" isn't stored in line ", i128::from(o.lines.1))?;
        push_words(text, b" then")
    }

    // Two iterations that meet, of the reason at a place.
    fn push_meeting(
        &self,
        text: &mut Vec<u8>,
        place: usize,
        meeting: &Meeting,
    ) -> Result<(), AllocError> {
        let first = self.first_of(place, meeting);
        match (first.processor, meeting.second.processor) {
            (Some(q), Some(p)) => {
                push_part(text, b"processor ", q)?;
                self.push_touch(text, first)?;
                self.push_last(text, place, meeting)?;
                push_part(text, b"; processor ", p)?;
                push_words(text, b" then")?;
            }
            _ => {
                push_words(text, b"an iteration")?;
                self.push_touch(text, first)?;
                push_words(text, b"; a later one")?;
            }
        }
        self.push_touch(text, &meeting.second)?;
        push_producers(text, &meeting.producers)
    }

    // The last store in front of the load, where a third processor does it.
    fn push_last(
        &self,
        text: &mut Vec<u8>,
        place: usize,
        meeting: &Meeting,
    ) -> Result<(), AllocError> {
        let Some(last) = self.last_of(place, meeting) else {
            return Ok(());
        };
        let Some(processor) = last.processor else {
            return Ok(());
        };
        push_part(text, b"; last of all processor ", processor)?;
        self.push_touch(text, last)
    }

    // What is done, to what, in which line and trips.
    fn push_touch(&self, text: &mut Vec<u8>, touch: &Touch) -> Result<(), AllocError> {
        push_words(
            text,
            if touch.stores {
                b" stores ".as_slice()
            } else {
                b" loads "
            },
        )?;
        self.push_element(text, touch)?;
        push_part(text, b" in line ", i128::from(touch.line))?;
        self.push_values(text, &touch.loops)
    }

    // The values of loops.
    fn push_values(&self, text: &mut Vec<u8>, loops: &[(u32, i128)]) -> Result<(), AllocError> {
        let mut word = b" at ".as_slice();
        for (number, value) in loops {
            push_words(text, word)?;
            match self.loop_at(*number) {
                Some(it) => push_words(text, it.variable.as_slice())?,
                None => push_part(text, b"loop ", i128::from(*number))?,
            }
            push_part(text, b" = ", *value)?;
            word = b", ";
        }
        Ok(())
    }

    // The element that is accessed, as in a source.
    fn push_element(&self, text: &mut Vec<u8>, touch: &Touch) -> Result<(), AllocError> {
        push_words(text, self.name_of(touch.variable))?;
        let mut word = b"(".as_slice();
        for subscript in &touch.subscripts {
            push_part(text, word, *subscript)?;
            word = b", ";
        }
        if !touch.subscripts.is_empty() {
            push_words(text, b")")?;
        }
        Ok(())
    }
}
