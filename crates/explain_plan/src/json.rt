// What is told of a plan, as JSON.

use crate::page::Page;
use comm_system::Obligation;
use plan_maker::tries::Tried;
use plan_text::put_kind;
use reason_witness::account::{About, Reason, Why};
use reason_witness::found::Finding;
use reason_witness::meeting::{Meeting, Touch, Witness};
use serde_json::{Map, Value, json};
use std::alloc::{AllocError, Global};
use sync_plan::Kind;

// One more member. It has no clause: what an object has is not followed.
fn enter(
    map: &mut Map<String, Value>,
    alloc: Global,
    key: &str,
    value: Value,
) -> Result<(), AllocError> {
    serde_json::put(map, alloc, key, value)
}

// A number; a text where it passes 64 bits.
fn number_value(alloc: Global, number: i128) -> Result<Value, AllocError> {
    match i64::try_from(number) {
        Ok(number) => Ok(Value::from(number)),
        Err(_) => {
            let mut buffer = itoa::Buffer::new();
            json!(in alloc; buffer.format(number))
        }
    }
}

// A list of numbers.
fn numbers_value(alloc: Global, numbers: &[i128]) -> Result<Value, AllocError> {
    let mut list = Vec::new(alloc);
    for number in numbers {
        list.push(number_value(alloc, *number)?)?;
    }
    Ok(Value::Array(list))
}

// A name; null where its bytes are no text.
fn name_value(alloc: Global, name: &[u8]) -> Result<Value, AllocError> {
    match str::from_utf8(name) {
        Ok(name) => json!(in alloc; name),
        Err(_) => Ok(Value::Null),
    }
}

// The words of a kind, as in a plan's text.
fn kind_value(alloc: Global, kind: &Kind) -> Result<Value, AllocError> {
    let mut words = Vec::new(alloc);
    put_kind(&mut words, kind)?;
    name_value(alloc, words.as_slice().trim_ascii())
}

// With which cells of its own each processor was to run a loop, where with any.
fn tried_word(tried: Tried) -> Option<&'static [u8]> {
    match tried {
        Tried::Doall => None,
        Tried::Private => Some(b"private".as_slice()),
        Tried::Sum => Some(b"sum".as_slice()),
    }
}

impl Page<'_> {
    /// The text, with a line's end. An error says that memory ran out.
    pub(crate) fn json(&self, alloc: Global) -> Result<Vec<u8>, AllocError> {
        let phases = self.phases_value(alloc)?;
        let reasons = self.reasons_value(alloc)?;
        let mut map = Map::new(alloc);
        enter(
            &mut map,
            alloc,
            "workers",
            Value::from(self.account.plan.workers),
        )?;
        enter(&mut map, alloc, "phases", phases)?;
        enter(&mut map, alloc, "reasons", reasons)?;
        let mut text = Value::Object(map).to_vec(alloc)?;
        text.push(b'\n')?;
        Ok(text)
    }

    // The static phases, with what stands in front of each.
    fn phases_value(&self, alloc: Global) -> Result<Value, AllocError> {
        let mut list = Vec::new(alloc);
        for (kind, line) in self.account.plan.kinds.as_slice().iter().zip(self.lines) {
            let mut map = Map::new(alloc);
            enter(&mut map, alloc, "line", Value::from(*line))?;
            enter(&mut map, alloc, "waits_for", kind_value(alloc, kind)?)?;
            list.push(Value::Object(map))?;
        }
        Ok(Value::Array(list))
    }

    fn reasons_value(&self, alloc: Global) -> Result<Value, AllocError> {
        let mut list = Vec::new(alloc);
        for (place, reason) in self.account.reasons.iter().enumerate() {
            let mut map = Map::new(alloc);
            self.put_about(alloc, &mut map, &reason.about)?;
            self.put_why(alloc, &mut map, place, reason)?;
            list.push(Value::Object(map))?;
        }
        Ok(Value::Array(list))
    }

    // A loop by its number, from 1.
    fn put_loop(
        &self,
        alloc: Global,
        map: &mut Map<String, Value>,
        number: u32,
    ) -> Result<(), AllocError> {
        enter(map, alloc, "loop", Value::from(number))?;
        if let Some(it) = self.loop_at(number) {
            enter(map, alloc, "line", Value::from(it.line))?;
            enter(
                map,
                alloc,
                "variable",
                name_value(alloc, it.variable.as_slice())?,
            )?;
        }
        Ok(())
    }

    // What a reason is for.
    fn put_about(
        &self,
        alloc: Global,
        map: &mut Map<String, Value>,
        about: &About,
    ) -> Result<(), AllocError> {
        match about {
            About::Loop(number, tried) => {
                self.put_loop(alloc, map, *number)?;
                match tried_word(*tried) {
                    Some(word) => enter(map, alloc, "tried", name_value(alloc, word)?),
                    None => Ok(()),
                }
            }
            About::Weaker(phase, kind) => {
                enter(map, alloc, "phase", Value::from(*phase))?;
                enter(map, alloc, "line", Value::from(self.line_of(*phase)))?;
                enter(map, alloc, "not", kind_value(alloc, kind)?)
            }
            About::Refused(number) => enter(map, alloc, "refused", Value::from(*number)),
        }
    }

    // What the reason is.
    fn put_why(
        &self,
        alloc: Global,
        map: &mut Map<String, Value>,
        place: usize,
        reason: &Reason,
    ) -> Result<(), AllocError> {
        let why = match &reason.why {
            Why::Print => "print",
            Why::Found(found) => {
                enter(
                    map,
                    alloc,
                    "obligation",
                    self.obligation_value(alloc, &found.obligation)?,
                )?;
                match &found.finding {
                    Finding::Solved(_, Witness::Meeting(meeting)) => {
                        self.put_meeting(alloc, map, place, meeting)?;
                    }
                    Finding::Solved(_, Witness::ZeroTrip(loops)) => {
                        enter(map, alloc, "outside", self.loops_value(alloc, loops)?)?;
                    }
                    Finding::Refuted | Finding::Unknown => {}
                }
                word_of(&found.finding)
            }
            Why::Certified => "certified",
            Why::Unfit(_) => "unfit",
        };
        enter(map, alloc, "why", json!(in alloc; why)?)
    }

    // Two iterations that meet, of the reason at a place.
    fn put_meeting(
        &self,
        alloc: Global,
        map: &mut Map<String, Value>,
        place: usize,
        meeting: &Meeting,
    ) -> Result<(), AllocError> {
        let first = self.first_of(place, meeting);
        enter(map, alloc, "first", self.touch_value(alloc, first)?)?;
        if let Some(last) = self.last_of(place, meeting) {
            enter(map, alloc, "last", self.touch_value(alloc, last)?)?;
        }
        enter(
            map,
            alloc,
            "second",
            self.touch_value(alloc, &meeting.second)?,
        )?;
        enter(
            map,
            alloc,
            "producers",
            numbers_value(alloc, meeting.producers.as_slice())?,
        )
    }

    // An access in an iteration.
    fn touch_value(&self, alloc: Global, touch: &Touch) -> Result<Value, AllocError> {
        let mut map = Map::new(alloc);
        if let Some(processor) = touch.processor {
            enter(
                &mut map,
                alloc,
                "processor",
                number_value(alloc, processor)?,
            )?;
        }
        enter(&mut map, alloc, "stores", Value::Bool(touch.stores))?;
        enter(
            &mut map,
            alloc,
            "name",
            name_value(alloc, self.name_of(touch.variable))?,
        )?;
        enter(
            &mut map,
            alloc,
            "subscripts",
            numbers_value(alloc, touch.subscripts.as_slice())?,
        )?;
        enter(&mut map, alloc, "line", Value::from(touch.line))?;
        let loops = self.loops_value(alloc, &touch.loops)?;
        enter(&mut map, alloc, "loops", loops)?;
        Ok(Value::Object(map))
    }

    // Loops, from the outermost, with their values.
    fn loops_value(&self, alloc: Global, loops: &[(u32, i128)]) -> Result<Value, AllocError> {
        let mut list = Vec::new(alloc);
        for (number, value) in loops {
            let mut map = Map::new(alloc);
            self.put_loop(alloc, &mut map, *number)?;
            enter(&mut map, alloc, "value", number_value(alloc, *value)?)?;
            list.push(Value::Object(map))?;
        }
        Ok(Value::Array(list))
    }

    // What an obligation speaks of.
    fn obligation_value(&self, alloc: Global, o: &Obligation) -> Result<Value, AllocError> {
        let mut map = Map::new(alloc);
        enter(
            &mut map,
            alloc,
            "lines",
            json!(in alloc; [o.lines.0, o.lines.1])?,
        )?;
        enter(
            &mut map,
            alloc,
            "name",
            name_value(alloc, self.name_of(o.variable))?,
        )?;
        enter(&mut map, alloc, "level", Value::from(o.level))?;
        enter(&mut map, alloc, "piece", Value::from(o.piece))?;
        Ok(Value::Object(map))
    }
}

fn word_of(finding: &Finding) -> &'static str {
    match finding {
        Finding::Solved(_, Witness::Meeting(_)) => "meeting",
        Finding::Solved(_, Witness::ZeroTrip(_)) => "zero_trip",
        Finding::Refuted => "certified",
        Finding::Unknown => "unknown",
    }
}
