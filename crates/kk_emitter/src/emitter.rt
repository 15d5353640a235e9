ghost use Rattle.std.specs.Prelude.{◌≡◌, ◌+◌, ◌<◌, ◌∷◌, [], false, true, length, slice_index_or, IfOk, IfErr, OnOk, OnErr};
ghost use Rattle.kk_syntax.specs.Shapes.{without};
ghost use Rattle.kk_counted.specs.BareForms.{bare_function};
ghost use Rattle.kk_counted.specs.CountedCodes.{tail_call};
ghost use Rattle.kk_counted.specs.CountedForms.{plug};
ghost use Rattle.kk_counted.specs.InstancePositions.{positions_in, fields_in};
ghost use Rattle.kk_counted.specs.Marks.{marks_of, CanBeMarked};
ghost use Rattle.kk_counted.specs.TokenedCodes.{Tokened};
ghost use Rattle.kk_counted.specs.TokenedForms.{TokenedMove, tokened_code, tokened_function, plug_tokened, opens_with, fills_with};
ghost use Rattle.kk_emitter.specs.Computing.{GivesFields, TakesDebts};
ghost use Rattle.kk_emitter.specs.Drafts.{begun, fallen, given, duplicated, dropped, unpacked, looked, fields_given, computed, Writes, Awaits, Reaches, IsLentTo, IsAtHand, Owns, OwnsAll, HoldsAll, HasConstructor, HasField, HasFields, IsPlain, IsOnly, Takes, EndsByCall, used_in, LendsAll, finished};
ghost use Rattle.kk_emitter.specs.Emissions.{counted_of, tokens_of};
ghost use Rattle.kk_emitter.specs.Emitting.{BecomesMarked};
ghost use Rattle.kk_emitter.specs.TokenDrafts.{no_tokens, adds, gains, spends, next_slot, under_holds, reads_with, kept_by, tokens_closed};
ghost use Rattle.kk_emitter.specs.TokenEmitting.{HasKnown, HasSpare, HasNoSpare, IsTokenedFunctionOf, fields_at};

use crate::debts::{Debts, Held, Kept, Owed, Spare};
use crate::lists::{chosen, numbers, parameters_passed};
use crate::work::Work;
use kk_base::NoMemory;
use kk_counted::{Shape, TokenedFun};
use kk_syntax::Form;
use std::alloc::Global;
use std::marker::Model;

/// What writes one function in code with tokens. Each reference stands in an `Owed` and each token in a `Spare`, which cannot be
/// let go: so each is spent once on each path.
#[derive(Drop)]
pub struct Emitter<'a> {
    pub(crate) shape: &'a Shape,
    pub(crate) work: Work,
}

impl<'a> Model for Emitter<'a> {
    ghost use Rattle.kk_counted.specs.InstancePositions.{positions_in, fields_in};
    ghost use Rattle.kk_counted.specs.Marks.{marks_of};
    ghost use Rattle.kk_emitter.specs.Emissions.{Emission, emission_code};
    ghost use Rattle.kk_emitter.specs.TokenEmitting.{IsSoundEmission};
    ghost use Rattle.kk_emitter.specs.Works.{draft, token_draft};

    ghost Value = { Emission };

    ghost coded = { emission_code };

    ghost view = { λ e. record { positions = positions_in e.shape.now.instances.items; field_counts = fields_in e.shape.now.constructors.items; marks = marks_of e.shape.now.instances.items e.shape.now.constructors.items; work = e.work } };

    ghost invariant = { λ e. IsSoundEmission (draft (positions_in e.shape.now.instances.items) (fields_in e.shape.now.constructors.items) (marks_of e.shape.now.instances.items e.shape.now.constructors.items) e.work) (token_draft e.work) };
}

impl<'a> Emitter<'a> {
    /// Begins the function of an instance of the shape.
    pub fn start(alloc: Global, shape: &'a Shape, instance: u32) -> Result<Emitter<'a>, NoMemory>
        requires { instance < length shape.now.instances.items }
        ensures ok { IfOk result (λ e. counted_of e ≡ begun (positions_in shape.now.instances.items) (fields_in shape.now.constructors.items) (marks_of shape.now.instances.items shape.now.constructors.items) instance) }
        ensures tokens { IfOk result (λ e. tokens_of e ≡ no_tokens) }
    {
        let parameters = shape.parameters(instance);
        let Ok(count) = u32::try_from(parameters.len()) else {
            return Err(NoMemory);
        };
        let uncalled = parameters_passed(alloc, parameters, false)?;
        let lent = parameters_passed(alloc, parameters, true)?;
        let work = Work {
            alloc,
            instance,
            parameters: count,
            next: count,
            failed: false,
            inside: true,
            steps: Vec::new(alloc),
            owed: Vec::new(alloc),
            uncalled,
            lent,
            spare: Vec::new(alloc),
            forks: Vec::new(alloc),
            ending: None,
        };
        Ok(Emitter { shape, work })
    }

    /// Gives the reference of an owned parameter, once for each.
    pub fn param(&mut self, variable: u32) -> Result<Owed, NoMemory>
        requires writes { Writes (counted_of self.old) }
        requires waits { Awaits (counted_of self.old) variable }
        ensures going { OnOk result ((counted_of self.old).failed ≡ false) }
        ensures ok { OnOk result (counted_of self.new ≡ given (counted_of self.old) variable) }
        ensures tokens { OnOk result (tokens_of self.new ≡ tokens_of self.old) }
        ensures owed { IfOk result (λ owed. (owed.emitter ≡ (counted_of self.old).instance) × (owed.variable ≡ variable)) }
        ensures err { OnErr result (counted_of self.new ≡ fallen (counted_of self.old)) }
    {
        if self.work.failed {
            return Err(NoMemory);
        }
        let Ok(()) = self.work.give(variable) else {
            self.work.failed = true;
            return Err(NoMemory);
        };
        Ok(Owed::of(self.work.instance, variable))
    }

    /// One reference more of a variable.
    pub fn dup(&mut self, owed: &Owed) -> Result<Owed, NoMemory>
        requires writes { Writes (counted_of self.old) }
        requires reaches { Reaches (counted_of self.old) owed.now.emitter owed.now.variable }
        ensures going { OnOk result ((counted_of self.old).failed ≡ false) }
        ensures ok { OnOk result (counted_of self.new ≡ duplicated (counted_of self.old) owed.now.variable) }
        ensures tokens { OnOk result (tokens_of self.new ≡ adds (tokens_of self.old) (TokenedMove.dups owed.now.variable ∷ [])) }
        ensures owed { IfOk result (λ one. (one.emitter ≡ (counted_of self.old).instance) × (one.variable ≡ owed.now.variable)) }
        ensures err { OnErr result (counted_of self.new ≡ fallen (counted_of self.old)) }
    {
        self.duplicate(owed.variable)
    }

    /// A reference of its own of a lent parameter.
    pub fn dup_lent(&mut self, variable: u32) -> Result<Owed, NoMemory>
        requires writes { Writes (counted_of self.old) }
        requires lent { IsLentTo (counted_of self.old) variable }
        ensures going { OnOk result ((counted_of self.old).failed ≡ false) }
        ensures ok { OnOk result (counted_of self.new ≡ duplicated (counted_of self.old) variable) }
        ensures tokens { OnOk result (tokens_of self.new ≡ adds (tokens_of self.old) (TokenedMove.dups variable ∷ [])) }
        ensures owed { IfOk result (λ one. (one.emitter ≡ (counted_of self.old).instance) × (one.variable ≡ variable)) }
        ensures err { OnErr result (counted_of self.new ≡ fallen (counted_of self.old)) }
    {
        self.duplicate(variable)
    }

    // One reference more of a variable that is lent or owned.
    fn duplicate(&mut self, variable: u32) -> Result<Owed, NoMemory>
        requires writes { Writes (counted_of self.old) }
        requires there { IsAtHand (counted_of self.old) variable }
        ensures going { OnOk result ((counted_of self.old).failed ≡ false) }
        ensures ok { OnOk result (counted_of self.new ≡ duplicated (counted_of self.old) variable) }
        ensures tokens { OnOk result (tokens_of self.new ≡ adds (tokens_of self.old) (TokenedMove.dups variable ∷ [])) }
        ensures owed { IfOk result (λ one. (one.emitter ≡ (counted_of self.old).instance) × (one.variable ≡ variable)) }
        ensures err { OnErr result (counted_of self.new ≡ fallen (counted_of self.old)) }
    {
        if self.work.failed {
            return Err(NoMemory);
        }
        let Ok(()) = self.work.dup(variable) else {
            self.work.failed = true;
            return Err(NoMemory);
        };
        Ok(Owed::of(self.work.instance, variable))
    }

    /// Hands a reference over as an argument of a call to come.
    pub fn hand_over(&mut self, owed: Owed) -> Result<u32, Kept>
        requires writes { Writes (counted_of self.old) }
        requires owns { Owns (counted_of self.old) owed.emitter owed.variable }
        ensures variable { IfOk result (λ variable. variable ≡ owed.variable) }
        ensures going { OnOk result ((counted_of self.old).failed ≡ false) }
        ensures same { counted_of self.new ≡ counted_of self.old }
        ensures tokens { tokens_of self.new ≡ tokens_of self.old }
        ensures kept { IfErr result (λ kept. kept.held ≡ Held.One owed) }
    {
        if self.work.failed {
            return Err(Kept::of_one(owed));
        }
        let variable = owed.variable;
        owed.spend();
        Ok(variable)
    }

    /// Gives up a reference.
    pub fn drop_ref(&mut self, owed: Owed) -> Result<(), Kept>
        requires writes { Writes (counted_of self.old) }
        requires owns { Owns (counted_of self.old) owed.emitter owed.variable }
        ensures going { OnOk result ((counted_of self.old).failed ≡ false) }
        ensures ok { OnOk result (counted_of self.new ≡ dropped (counted_of self.old) owed.variable) }
        ensures tokens { OnOk result (tokens_of self.new ≡ adds (tokens_of self.old) (TokenedMove.drops owed.variable ∷ [])) }
        ensures err { OnErr result (counted_of self.new ≡ counted_of self.old) }
        ensures unwritten { OnErr result (tokens_of self.new ≡ tokens_of self.old) }
        ensures kept { IfErr result (λ kept. kept.held ≡ Held.One owed) }
    {
        if self.work.failed {
            return Err(Kept::of_one(owed));
        }
        let Ok(()) = self.work.give_up(owed.variable) else {
            return Err(Kept::of_one(owed));
        };
        owed.spend();
        Ok(())
    }

    /// Lends what a reference owns to calls to come. The reference stays as it is.
    pub fn lend(&mut self, owed: &Owed) -> u32
        requires reaches { Reaches (counted_of self.old) owed.now.emitter owed.now.variable }
        ensures variable { result ≡ owed.now.variable }
        ensures same { counted_of self.new ≡ counted_of self.old }
        ensures tokens { tokens_of self.new ≡ tokens_of self.old }
    {
        owed.variable
    }

    /// Reads the fields of a cell of that constructor, and gives those that the mask names, in their order: its lowest bit
    /// tells whether the first field is among them. They get a reference more. The cell stays with its owner. Where its
    /// variable is lent, its fields are lent too.
    pub fn fields(&mut self, variable: u32, constructor: u32, used: u8) -> Result<Debts, NoMemory>
        requires writes { Writes (counted_of self.old) }
        requires there { IsAtHand (counted_of self.old) variable }
        requires constructor { HasConstructor (counted_of self.old) constructor }
        ensures going { OnOk result ((counted_of self.old).failed ≡ false) }
        ensures ok { OnOk result (counted_of self.new ≡ looked (counted_of self.old) variable constructor used) }
        ensures tokens { OnOk result (tokens_of self.new ≡ adds (tokens_of self.old) (reads_with variable constructor (fields_at (counted_of self.old) constructor) (fields_given (counted_of self.old) constructor used))) }
        ensures debts { IfOk result (λ debts. debts.variables.items ≡ fields_given (counted_of self.old) constructor used) }
        ensures emitter { IfOk result (λ debts. debts.emitter ≡ (counted_of self.old).instance) }
        ensures alone { IfOk result (λ debts. debts.spare.items ≡ []) }
        ensures err { OnErr result (counted_of self.new ≡ fallen (counted_of self.old)) }
    {
        let variables = self.read(variable, constructor, used)?;
        Ok(Debts {
            emitter: self.work.instance,
            variables,
            spare: Vec::new(self.work.alloc),
        })
    }

    /// Reads the fields of a cell of that constructor that a lent variable names, and gives the variable of one of them, by
    /// its number from 0. All of them are lent from then on.
    pub fn field(&mut self, variable: u32, constructor: u32, at: u8) -> Result<u32, NoMemory>
        requires writes { Writes (counted_of self.old) }
        requires lent { IsLentTo (counted_of self.old) variable }
        requires field { HasField (counted_of self.old) constructor at }
        ensures going { OnOk result ((counted_of self.old).failed ≡ false) }
        ensures ok { OnOk result (counted_of self.new ≡ looked (counted_of self.old) variable constructor 0) }
        ensures tokens { OnOk result (tokens_of self.new ≡ adds (tokens_of self.old) (reads_with variable constructor (fields_at (counted_of self.old) constructor) [])) }
        ensures variable { IfOk result (λ field. field ≡ (counted_of self.old).next + at) }
        ensures err { OnErr result (counted_of self.new ≡ fallen (counted_of self.old)) }
    {
        let Some(field) = self.work.next.checked_add(at as u32) else {
            return Err(self.fail());
        };
        let _ = self.read(variable, constructor, 0)?;
        Ok(field)
    }

    // Reads the fields of a cell that stays, and gives the variables of those that the mask names.
    fn read(&mut self, variable: u32, constructor: u32, used: u8) -> Result<Vec<u32>, NoMemory>
        requires writes { Writes (counted_of self.old) }
        requires there { IsAtHand (counted_of self.old) variable }
        requires constructor { HasConstructor (counted_of self.old) constructor }
        ensures going { OnOk result ((counted_of self.old).failed ≡ false) }
        ensures ok { OnOk result (counted_of self.new ≡ looked (counted_of self.old) variable constructor used) }
        ensures tokens { OnOk result (tokens_of self.new ≡ adds (tokens_of self.old) (reads_with variable constructor (fields_at (counted_of self.old) constructor) (fields_given (counted_of self.old) constructor used))) }
        ensures given { IfOk result (λ given. given.items ≡ fields_given (counted_of self.old) constructor used) }
        ensures err { OnErr result (counted_of self.new ≡ fallen (counted_of self.old)) }
    {
        let count = self.field_count(constructor);
        if self.work.failed {
            return Err(NoMemory);
        }
        let Ok(given) = self.work.read(variable, constructor, count, used) else {
            self.work.failed = true;
            return Err(NoMemory);
        };
        Ok(given)
    }

    /// Opens a cell of that constructor, and gives the fields that the mask names, in their order, and the token of the cell. The
    /// mask's lowest bit tells whether the first field is among them. The other fields are given up with the cell's reference.
    pub fn unpack(&mut self, owed: Owed, constructor: u32, used: u8) -> Result<(Debts, Spare), Kept>
        requires writes { Writes (counted_of self.old) }
        requires owns { Owns (counted_of self.old) owed.emitter owed.variable }
        requires constructor { HasConstructor (counted_of self.old) constructor }
        ensures going { OnOk result ((counted_of self.old).failed ≡ false) }
        ensures ok { OnOk result (counted_of self.new ≡ unpacked (counted_of self.old) false owed.variable constructor used) }
        ensures tokens { OnOk result (tokens_of self.new ≡ gains (tokens_of self.old) (opens_with false owed.variable constructor (fields_at (counted_of self.old) constructor) (fields_given (counted_of self.old) constructor used) (next_slot (tokens_of self.old).spare))) }
        ensures given { IfOk result (λ both. GivesFields (counted_of self.old) (tokens_of self.old) constructor used both.0 both.1) }
        ensures err { OnErr result (counted_of self.new ≡ counted_of self.old) }
        ensures unwritten { OnErr result (tokens_of self.new ≡ tokens_of self.old) }
        ensures kept { IfErr result (λ kept. kept.held ≡ Held.One owed) }
    {
        self.opened(owed, constructor, used, false)
    }

    /// The same by the count of the cell: one with a single reference gives the fields away that the mask names.
    pub fn unpack_unique(
        &mut self,
        owed: Owed,
        constructor: u32,
        used: u8,
    ) -> Result<(Debts, Spare), Kept>
        requires writes { Writes (counted_of self.old) }
        requires owns { Owns (counted_of self.old) owed.emitter owed.variable }
        requires constructor { HasConstructor (counted_of self.old) constructor }
        ensures going { OnOk result ((counted_of self.old).failed ≡ false) }
        ensures ok { OnOk result (counted_of self.new ≡ unpacked (counted_of self.old) true owed.variable constructor used) }
        ensures tokens { OnOk result (tokens_of self.new ≡ gains (tokens_of self.old) (opens_with true owed.variable constructor (fields_at (counted_of self.old) constructor) (fields_given (counted_of self.old) constructor used) (next_slot (tokens_of self.old).spare))) }
        ensures given { IfOk result (λ both. GivesFields (counted_of self.old) (tokens_of self.old) constructor used both.0 both.1) }
        ensures err { OnErr result (counted_of self.new ≡ counted_of self.old) }
        ensures unwritten { OnErr result (tokens_of self.new ≡ tokens_of self.old) }
        ensures kept { IfErr result (λ kept. kept.held ≡ Held.One owed) }
    {
        self.opened(owed, constructor, used, true)
    }

    // Opens a cell of that constructor, by its count or not.
    fn opened(
        &mut self,
        owed: Owed,
        constructor: u32,
        used: u8,
        by_count: bool,
    ) -> Result<(Debts, Spare), Kept>
        requires writes { Writes (counted_of self.old) }
        requires owns { Owns (counted_of self.old) owed.emitter owed.variable }
        requires constructor { HasConstructor (counted_of self.old) constructor }
        ensures going { OnOk result ((counted_of self.old).failed ≡ false) }
        ensures ok { OnOk result (counted_of self.new ≡ unpacked (counted_of self.old) by_count owed.variable constructor used) }
        ensures tokens { OnOk result (tokens_of self.new ≡ gains (tokens_of self.old) (opens_with by_count owed.variable constructor (fields_at (counted_of self.old) constructor) (fields_given (counted_of self.old) constructor used) (next_slot (tokens_of self.old).spare))) }
        ensures given { IfOk result (λ both. GivesFields (counted_of self.old) (tokens_of self.old) constructor used both.0 both.1) }
        ensures err { OnErr result (counted_of self.new ≡ counted_of self.old) }
        ensures unwritten { OnErr result (tokens_of self.new ≡ tokens_of self.old) }
        ensures kept { IfErr result (λ kept. kept.held ≡ Held.One owed) }
    {
        let count = self.field_count(constructor);
        if self.work.failed {
            return Err(Kept::of_one(owed));
        }
        let Ok((variables, slot)) = self
            .work
            .open(owed.variable, constructor, count, used, by_count)
        else {
            return Err(Kept::of_one(owed));
        };
        owed.spend();
        let emitter = self.work.instance;
        let debts = Debts {
            emitter,
            variables,
            spare: Vec::new(self.work.alloc),
        };
        Ok((debts, Spare { emitter, slot }))
    }

    /// A new cell of that constructor, which takes the references as its fields, in their order.
    pub fn construct(&mut self, constructor: u32, debts: Debts) -> Result<Owed, Kept>
        requires writes { Writes (counted_of self.old) }
        requires owns { OwnsAll (counted_of self.old) debts.emitter debts.variables.items }
        requires fields { HasFields (counted_of self.old) constructor (length debts.variables.items) }
        requires alone { debts.spare.items ≡ [] }
        ensures going { OnOk result ((counted_of self.old).failed ≡ false) }
        ensures ok { OnOk result (counted_of self.new ≡ computed (counted_of self.old) (Form.Construct constructor) debts.variables.items debts.variables.items) }
        ensures tokens { OnOk result (tokens_of self.new ≡ adds (tokens_of self.old) (TokenedMove.computes (counted_of self.old).next (Form.Construct constructor) debts.variables.items (tokens_of self.old).spare ∷ [])) }
        ensures owed { IfOk result (λ owed. (owed.emitter ≡ (counted_of self.old).instance) × (owed.variable ≡ (counted_of self.old).next)) }
        ensures err { OnErr result (counted_of self.new ≡ counted_of self.old) }
        ensures unwritten { OnErr result (tokens_of self.new ≡ tokens_of self.old) }
        ensures kept { IfErr result (λ kept. kept.held ≡ Held.Many debts) }
    {
        if self.work.failed {
            return Err(Kept::of_many(debts));
        }
        let form = Form::Construct(constructor);
        let Ok(variable) = self.work.compute(form, &debts.variables, &[]) else {
            return Err(Kept::of_many(debts));
        };
        debts.spend();
        Ok(Owed::of(self.work.instance, variable))
    }

    /// An operator, print or read on variables that were handed over, or, with none, a number, `()` or a constructor without
    /// fields.
    pub fn plain(&mut self, form: Form, arguments: Vec<u32>) -> Result<Owed, Kept>
        requires writes { Writes (counted_of self.old) }
        requires plain { IsPlain (counted_of self.old) form arguments.items }
        requires owns { HoldsAll (counted_of self.old) arguments.items }
        ensures going { OnOk result ((counted_of self.old).failed ≡ false) }
        ensures ok { OnOk result (counted_of self.new ≡ computed (counted_of self.old) form arguments.items arguments.items) }
        ensures tokens { OnOk result (tokens_of self.new ≡ adds (tokens_of self.old) (TokenedMove.computes (counted_of self.old).next form arguments.items (tokens_of self.old).spare ∷ [])) }
        ensures owed { IfOk result (λ owed. (owed.emitter ≡ (counted_of self.old).instance) × (owed.variable ≡ (counted_of self.old).next)) }
        ensures err { OnErr result (counted_of self.new ≡ counted_of self.old) }
        ensures unwritten { OnErr result (tokens_of self.new ≡ tokens_of self.old) }
        ensures kept { IfErr result (λ kept. kept.held ≡ Held.Nothing) }
    {
        if self.work.failed {
            return Err(Kept::of_nothing());
        }
        let Ok(variable) = self.work.compute(form, &arguments, &[]) else {
            return Err(Kept::of_nothing());
        };
        Ok(Owed::of(self.work.instance, variable))
    }

    /// A call that is no tail call. Its arguments at owned positions were handed over; those at lent positions are lent, or
    /// stay owned on this path. The tokens are held before it and taken back behind it.
    pub fn called(&mut self, instance: u32, arguments: Vec<u32>) -> Result<Owed, Kept>
        requires writes { Writes (counted_of self.old) }
        requires takes { Takes (counted_of self.old) instance arguments.items }
        requires owns { HoldsAll (counted_of self.old) (used_in (counted_of self.old) instance arguments.items) }
        requires lends { LendsAll (counted_of self.old) instance arguments.items }
        ensures going { OnOk result ((counted_of self.old).failed ≡ false) }
        ensures ok { OnOk result (counted_of self.new ≡ computed (counted_of self.old) (Form.Call instance) arguments.items (used_in (counted_of self.old) instance arguments.items)) }
        ensures tokens { OnOk result (tokens_of self.new ≡ adds (tokens_of self.old) (under_holds (tokens_of self.old).spare (TokenedMove.computes (counted_of self.old).next (Form.Call instance) arguments.items (tokens_of self.old).spare))) }
        ensures owed { IfOk result (λ owed. (owed.emitter ≡ (counted_of self.old).instance) × (owed.variable ≡ (counted_of self.old).next)) }
        ensures err { OnErr result (counted_of self.new ≡ counted_of self.old) }
        ensures unwritten { OnErr result (tokens_of self.new ≡ tokens_of self.old) }
        ensures kept { IfErr result (λ kept. kept.held ≡ Held.Nothing) }
    {
        let parameters = self.shape.parameters(instance);
        if self.work.failed {
            return Err(Kept::of_nothing());
        }
        let Ok(variable) = self.work.call(instance, &arguments, parameters) else {
            return Err(Kept::of_nothing());
        };
        Ok(Owed::of(self.work.instance, variable))
    }

    /// A cell of that constructor, which has fields, in the cell of a token, or a new one where the token is null. It takes the
    /// references as its fields, in their order.
    pub fn construct_in(
        &mut self,
        spare: Spare,
        constructor: u32,
        debts: Debts,
    ) -> Result<Owed, Kept>
        requires writes { Writes (counted_of self.old) }
        requires has { HasSpare (counted_of self.old) (tokens_of self.old) spare.emitter spare.slot }
        requires takes { TakesDebts (counted_of self.old) constructor debts }
        ensures going { OnOk result ((counted_of self.old).failed ≡ false) }
        ensures ok { OnOk result (counted_of self.new ≡ computed (counted_of self.old) (Form.Construct constructor) debts.variables.items debts.variables.items) }
        ensures tokens { OnOk result (tokens_of self.new ≡ spends (tokens_of self.old) (fills_with (counted_of self.old).next spare.slot constructor debts.variables.items [] (without (spare.slot ∷ []) (tokens_of self.old).spare)) spare.slot) }
        ensures owed { IfOk result (λ owed. (owed.emitter ≡ (counted_of self.old).instance) × (owed.variable ≡ (counted_of self.old).next)) }
        ensures err { OnErr result (counted_of self.new ≡ counted_of self.old) }
        ensures unwritten { OnErr result (tokens_of self.new ≡ tokens_of self.old) }
        ensures kept { IfErr result (λ kept. kept.held ≡ Held.Filling spare debts) }
    {
        self.fill(spare, constructor, Vec::new(self.work.alloc), debts)
    }

    /// The same, but where the token is not null the fields that the mask names are not written: its lowest bit tells whether the
    /// first one is among them. The opening of the token gave each of them as the variable that now stands there.
    pub fn construct_over(
        &mut self,
        spare: Spare,
        constructor: u32,
        keep: u8,
        debts: Debts,
    ) -> Result<Owed, Kept>
        requires writes { Writes (counted_of self.old) }
        requires has { HasSpare (counted_of self.old) (tokens_of self.old) spare.emitter spare.slot }
        requires takes { TakesDebts (counted_of self.old) constructor debts }
        requires known { HasKnown (counted_of self.old) (tokens_of self.old) spare.slot (kept_by keep (length debts.variables.items)) debts.variables.items }
        ensures going { OnOk result ((counted_of self.old).failed ≡ false) }
        ensures ok { OnOk result (counted_of self.new ≡ computed (counted_of self.old) (Form.Construct constructor) debts.variables.items debts.variables.items) }
        ensures tokens { OnOk result (tokens_of self.new ≡ spends (tokens_of self.old) (fills_with (counted_of self.old).next spare.slot constructor debts.variables.items (kept_by keep (length debts.variables.items)) (without (spare.slot ∷ []) (tokens_of self.old).spare)) spare.slot) }
        ensures owed { IfOk result (λ owed. (owed.emitter ≡ (counted_of self.old).instance) × (owed.variable ≡ (counted_of self.old).next)) }
        ensures err { OnErr result (counted_of self.new ≡ counted_of self.old) }
        ensures unwritten { OnErr result (tokens_of self.new ≡ tokens_of self.old) }
        ensures kept { IfErr result (λ kept. kept.held ≡ Held.Filling spare debts) }
    {
        let alloc = self.work.alloc;
        let Ok((positions, _)) = numbers(alloc, 0, debts.variables.len()) else {
            return Err(Kept::of_filling(spare, debts));
        };
        let Ok(kept) = chosen(alloc, &positions, keep) else {
            return Err(Kept::of_filling(spare, debts));
        };
        self.fill(spare, constructor, kept, debts)
    }

    // Builds a cell in the cell of a token, which has the fields at the kept positions already.
    fn fill(
        &mut self,
        spare: Spare,
        constructor: u32,
        kept: Vec<u32>,
        debts: Debts,
    ) -> Result<Owed, Kept>
        requires writes { Writes (counted_of self.old) }
        requires has { HasSpare (counted_of self.old) (tokens_of self.old) spare.emitter spare.slot }
        requires takes { TakesDebts (counted_of self.old) constructor debts }
        requires known { HasKnown (counted_of self.old) (tokens_of self.old) spare.slot kept.items debts.variables.items }
        ensures going { OnOk result ((counted_of self.old).failed ≡ false) }
        ensures ok { OnOk result (counted_of self.new ≡ computed (counted_of self.old) (Form.Construct constructor) debts.variables.items debts.variables.items) }
        ensures tokens { OnOk result (tokens_of self.new ≡ spends (tokens_of self.old) (fills_with (counted_of self.old).next spare.slot constructor debts.variables.items kept.items (without (spare.slot ∷ []) (tokens_of self.old).spare)) spare.slot) }
        ensures owed { IfOk result (λ owed. (owed.emitter ≡ (counted_of self.old).instance) × (owed.variable ≡ (counted_of self.old).next)) }
        ensures err { OnErr result (counted_of self.new ≡ counted_of self.old) }
        ensures unwritten { OnErr result (tokens_of self.new ≡ tokens_of self.old) }
        ensures kept { IfErr result (λ kept. kept.held ≡ Held.Filling spare debts) }
    {
        if self.work.failed {
            return Err(Kept::of_filling(spare, debts));
        }
        let slot = spare.slot;
        let Ok(variable) = self.work.fill(slot, constructor, &debts.variables, kept) else {
            return Err(Kept::of_filling(spare, debts));
        };
        spare.spend();
        debts.spend();
        Ok(Owed::of(self.work.instance, variable))
    }

    /// Frees the cell of a token, if it is not null.
    pub fn release(&mut self, spare: Spare) -> Result<(), Kept>
        requires writes { Writes (counted_of self.old) }
        requires has { HasSpare (counted_of self.old) (tokens_of self.old) spare.emitter spare.slot }
        ensures going { OnOk result ((counted_of self.old).failed ≡ false) }
        ensures ok { counted_of self.new ≡ counted_of self.old }
        ensures tokens { OnOk result (tokens_of self.new ≡ spends (tokens_of self.old) (TokenedMove.frees spare.slot) spare.slot) }
        ensures unwritten { OnErr result (tokens_of self.new ≡ tokens_of self.old) }
        ensures kept { IfErr result (λ kept. kept.held ≡ Held.Token spare) }
    {
        if self.work.failed {
            return Err(Kept::of_token(spare));
        }
        let Ok(()) = self.work.release(spare.slot) else {
            return Err(Kept::of_token(spare));
        };
        spare.spend();
        Ok(())
    }

    /// Ends the function by a tail call of an instance. Its arguments at owned positions were handed over, and nothing else
    /// is unspent, no token either. Each value that a step takes has cells exactly where what takes it has them.
    pub fn finish_tail(self, instance: u32, arguments: Vec<u32>) -> Result<TokenedFun, Kept>
        requires writes { Writes (counted_of self) }
        requires joined { (counted_of self).failed ≡ false → (counted_of self).splits ≡ [] }
        requires takes { Takes (counted_of self) instance arguments.items }
        requires ends { EndsByCall (counted_of self) instance arguments.items }
        requires none { HasNoSpare (counted_of self) (tokens_of self) }
        requires marked { BecomesMarked (counted_of self) (plug (counted_of self).steps (tail_call instance arguments.items)) }
        ensures going { OnOk result ((counted_of self.entry).failed ≡ false) }
        ensures body { IfOk result (λ function. tokened_code function.body ≡ plug_tokened (tokens_of self.entry).moves (Tokened.tail_call instance arguments.items)) }
        ensures function { IfOk result (λ function. IsTokenedFunctionOf (counted_of self.entry).positions (counted_of self.entry).instance function) }
        ensures marked { IfOk result (λ function. CanBeMarked (counted_of self.entry).marks (counted_of self.entry).instance (bare_function (tokened_function function))) }
        ensures kept { IfErr result (λ kept. kept.held ≡ Held.Nothing) }
        ensures ended { IfErr result (λ kept. kept.ended ≡ true) }
    {
        let Emitter { shape: _, work } = self;
        if work.failed {
            return Err(Kept::of_nothing().as_ended());
        }
        Ok(work.finish_by_call(instance, arguments))
    }

    /// Ends the function by giving the value that a reference owns. No other reference and no token is unspent. Each value that
    /// a step takes has cells exactly where the field, the parameter or the result that takes it has them. Where the last step is
    /// a join, and the value is that of its branch, the branch itself ends the function.
    pub fn finish(self, owed: Owed) -> Result<TokenedFun, Kept>
        requires inside { (counted_of self).failed ≡ false → (counted_of self).inside ≡ true }
        requires joined { (counted_of self).failed ≡ false → (counted_of self).splits ≡ [] }
        requires called { (counted_of self).failed ≡ false → (counted_of self).uncalled ≡ [] }
        requires only { IsOnly (counted_of self) owed.emitter owed.variable }
        requires none { HasNoSpare (counted_of self) (tokens_of self) }
        requires marked { BecomesMarked (counted_of self) (finished (counted_of self) owed.variable) }
        ensures going { OnOk result ((counted_of self.entry).failed ≡ false) }
        ensures body { IfOk result (λ function. tokened_code function.body ≡ tokens_closed (tokens_of self.entry) owed.variable) }
        ensures function { IfOk result (λ function. IsTokenedFunctionOf (counted_of self.entry).positions (counted_of self.entry).instance function) }
        ensures marked { IfOk result (λ function. CanBeMarked (counted_of self.entry).marks (counted_of self.entry).instance (bare_function (tokened_function function))) }
        ensures kept { IfErr result (λ kept. kept.held ≡ Held.One owed) }
        ensures ended { IfErr result (λ kept. kept.ended ≡ true) }
    {
        let Emitter { shape: _, work } = self;
        if work.failed {
            return Err(Kept::of_one(owed).as_ended());
        }
        let variable = owed.variable;
        owed.spend();
        Ok(work.finish(variable))
    }

    // How many fields a constructor has.
    fn field_count(&self, constructor: u32) -> usize
        requires { HasConstructor (counted_of self.now) constructor }
        ensures { result ≡ slice_index_or (counted_of self.now).field_counts constructor 0 }
    {
        self.shape.constructors()[constructor as usize].fields.len()
    }

    /// Spends the values of a call that found no memory. The emitter has failed from then on.
    pub fn abandon(&mut self, kept: Kept)
        ensures { counted_of self.new ≡ fallen (counted_of self.old) }
    {
        kept.spend();
        self.work.failed = true;
    }

    /// Tells that its caller has found no memory. The emitter has failed from then on.
    pub fn fail(&mut self) -> NoMemory
        ensures { counted_of self.new ≡ fallen (counted_of self.old) }
    {
        self.work.failed = true;
        NoMemory
    }
}
