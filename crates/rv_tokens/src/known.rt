// What the writing of a function's code reads: its variables, the words of constructors, and what stands in the cells of its tokens.

ghost use Rattle.std.specs.Prelude.{◌≡◌, ◌+◌, ◌*◌, IfOk};
ghost use Rattle.rv_cells.specs.TokenedLines.{values_of_slots};
ghost use Rattle.rv_cells.specs.Layout.{mask_of, header_of};
ghost use Rattle.rv_cells.specs.CountedLines.{is_plain};
ghost use Rattle.rv_tokens.specs.TokenedWritten.{variables_known};
ghost use Rattle.rv_tokens.specs.Written.{holds_known, layout_known};

use kk_base::NoMemory;
use kk_core::{Answer, ConstructorShape};
use kk_syntax::StringLiteral;
use rv_cells::Standing;
use std::alloc::Global;

/// How many tags the byte of a header tells apart.
const TAG_VALUES: u32 = 256;

/// What the writing of a function's code reads.
#[derive(Clone, Copy, Drop)]
pub struct Known<'a> {
    pub literals: &'a [StringLiteral],
    pub constructors: &'a [ConstructorShape],
    /// By a variable's number, whether its type has cells. Behind the last it has none.
    pub marks: &'a [bool],
    /// What stands in the cells of the function's tokens.
    pub standing: Standing,
}

impl Known<'_> {
    /// Whether the type of a variable has cells.
    pub fn holds(&self, variable: u32) -> bool
        ensures { result ≡ holds_known self.now variable }
    {
        match self.marks.get(variable as usize) {
            Some(mark) => *mark,
            None => false,
        }
    }

    /// The tag of a constructor. Behind the last it is 0.
    pub fn tag(&self, constructor: u32) -> u32
        ensures { result ≡ (layout_known self.now).tag constructor }
    {
        match self.constructors.get(constructor as usize) {
            Some(one) => one.tag,
            None => 0,
        }
    }

    /// Of each field of a constructor, whether its type has cells. Behind the last there are none.
    fn fields(&self, constructor: u32) -> &[bool]
        ensures { result.now ≡ (layout_known self.now).fields constructor }
    {
        match self.constructors.get(constructor as usize) {
            Some(one) => &one.fields,
            None => &[],
        }
    }

    /// The header of a constructor's cells. An overflow of a word is answered as out of memory.
    pub fn header(&self, constructor: u32) -> Result<u32, NoMemory>
        ensures { IfOk result (λ word. word ≡ header_of (layout_known self.now) constructor) }
    {
        let mask = mask(self.fields(constructor))?;
        let Some(place) = mask.checked_mul(TAG_VALUES) else {
            return Err(NoMemory);
        };
        match self.tag(constructor).checked_add(place) {
            Some(word) => Ok(word),
            None => Err(NoMemory),
        }
    }

    /// The word of a constructor without fields. An overflow of a word is answered as out of memory.
    pub fn constant(&self, constructor: u32) -> Result<u32, NoMemory>
        ensures { IfOk result (λ word. word ≡ 2 * (layout_known self.now).tag constructor + 1) }
    {
        let tag = self.tag(constructor);
        if tag < 1 << 31 {
            Ok(2 * tag + 1)
        } else {
            Err(NoMemory)
        }
    }

    /// The value of a slot: those of slots are behind all variables. An overflow of `u32` is answered as out of memory.
    pub fn slot(&self, slot: u32) -> Result<u32, NoMemory>
        ensures { IfOk result (λ value. value ≡ variables_known self.now + slot) }
    {
        let Ok(variables) = u32::try_from(self.marks.len()) else {
            return Err(NoMemory);
        };
        match variables.checked_add(slot) {
            Some(value) => Ok(value),
            None => Err(NoMemory),
        }
    }

    /// The values of slots.
    pub fn slots(&self, alloc: Global, slots: &[u32]) -> Result<Vec<u32>, NoMemory>
        ensures { IfOk result (λ values. values.items ≡ values_of_slots (variables_known self.now) slots.now) }
    {
        let mut values = Vec::new(alloc);
        for slot in slots {
            let value = self.slot(*slot)?;
            values.push(value)?;
        }
        Ok(values)
    }

    /// Whether the word of a value shows an answer.
    pub fn is_plain(&self, answer: Answer) -> bool
        ensures { result ≡ is_plain (layout_known self.now) answer }
    {
        match answer {
            Answer::Number(_) => true,
            Answer::Constructor(constructor) => self.fields(constructor).is_empty(),
        }
    }
}

/// Fields that can hold cells as bits, the first one's lowest. The recursion is as deep as the fields are many.
fn mask(fields: &[bool]) -> Result<u32, NoMemory>
    ensures { IfOk result (λ mask. mask ≡ mask_of fields.now) }
{
    match fields {
        [] => Ok(0),
        [holds, more @ ..] => {
            let mask = mask(more)?;
            let Some(place) = mask.checked_mul(2) else {
                return Err(NoMemory);
            };
            match place.checked_add(u32::from(*holds)) {
                Some(mask) => Ok(mask),
                None => Err(NoMemory),
            }
        }
    }
}
