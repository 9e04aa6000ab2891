// What the expressions of a statement come to.

ghost use Rattle.std.specs.Prelude.{◌≡◌, ◌++◌, List, [], ◌∷◌, IfOk, OnOk, map};
ghost use Rattle.f77_forms.specs.Form.{ExpressionForm};
ghost use Rattle.f77_forms.specs.View.{expression_of, definition_of};
ghost use Rattle.f77_scene.specs.Scene.{Scene};
ghost use Rattle.f77_scene.specs.Statements as statements;
ghost use Rattle.f77_program.specs.Operands.{forms_of};
ghost use Rattle.f77_program.specs.Surveys as spec;
ghost use Rattle.f77_program.specs.Wholes.{given_of};

use crate::known::Known;
use crate::limits::value_of;
use crate::marks::Marks;
use crate::measure::Measure;
use crate::measures::measure;
use crate::parts::parts_of;
use crate::whole::Whole;
use f77_forms::{Definition, Expression};
use std::alloc::{AllocError, Global};

/// What the expressions of a statement come to: what holds of some part of them, and of each what
/// it comes to.
#[derive(Drop)]
pub struct Survey {
    pub marks: Marks,
    pub measures: Vec<Measure>,
}

impl Survey {
    /// Of no expression.
    pub fn new(alloc: Global) -> Self
        ensures { spec.survey_view result ≡ spec.survey_of [] }
    {
        Survey {
            marks: Marks::new(),
            measures: Vec::new(alloc),
        }
    }

    /// Of one expression more.
    pub fn add(&mut self, alloc: Global, known: &Known, e: &Expression) -> Result<(), AllocError>
        ensures { (spots : List statements.Spot) → spec.survey_view self.old ≡ spec.survey_of spots
            → OnOk result (spec.survey_view self.new ≡ spec.survey_of (spots
            ++ (known.now, expression_of e.now) ∷ [])) }
    {
        let parts = parts_of(alloc, e)?;
        let measure = measure(alloc, known, parts.as_slice())?;
        self.measures.push(measure)?;
        self.marks = self.marks.also(known, parts.as_slice());
        Ok(())
    }
}

/// Of expressions at one place.
pub fn survey_at(
    alloc: Global,
    known: &Known,
    expressions: &[&Expression],
) -> Result<Survey, AllocError>
    ensures { IfOk result (λ survey. spec.survey_view survey
        ≡ spec.survey_of (map (λ e. (known.now, e)) (forms_of expressions.now))) }
{
    let mut survey = Survey::new(alloc);
    for e in expressions {
        survey.add(alloc, known, e)?;
    }
    Ok(survey)
}

/// Of the values of a PARAMETER statement, each of which may use the names in front of it; the
/// names are known behind it.
pub fn define(
    alloc: Global,
    whole: &Whole,
    known: &mut Known,
    definitions: &[Definition],
) -> Result<Survey, AllocError>
    ensures survey { IfOk result (λ survey. spec.survey_view survey
        ≡ spec.survey_of (statements.definition_spots (given_of whole.now) known.old
        (map definition_of definitions.now))) }
    ensures known { OnOk result (known.new ≡ statements.with_constants (given_of whole.now)
        known.old (map definition_of definitions.now)) }
{
    let mut survey = Survey::new(alloc);
    for definition in definitions {
        survey.add(alloc, known, &definition.value)?;
        let written = value_of(alloc, known, &definition.value)?;
        let value = whole.value_set(&definition.name, written);
        known.define(alloc, &definition.name, value)?;
    }
    Ok(survey)
}
