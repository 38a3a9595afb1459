//! The law of what lines say.

ghost use Rattle.std.specs.Prelude.{◌≡◌, ℕ, ℤ, List};
ghost use Rattle.asset_names.specs.declared.names.Ob.{Ob as ObjectName};
ghost use Rattle.asset_names.specs.declared.steps.Step.{Step};
ghost use Rattle.asset_grammar.specs.declared.grammar.Command.TheVariants.{Ask, Object};
ghost use Rattle.asset_grammar.specs.declared.grammar.Line.TheVariants.{Command};
ghost use Rattle.asset_grammar.specs.Grammar.{line_of};
ghost use Rattle.asset_grammar.specs.Writable.{IsWritable, IsWritableObject};

/// The numbers and values that a line says are in range, and its sets are lists in rising order.
pub fn lines_say_what_is_in_range()
    ensures step { (line : List ℕ) (step : Step) → line_of line ≡ Command (Ask step) → IsWritable step }
    ensures object { (line : List ℕ) (given : ObjectName × ℤ) → line_of line ≡ Command (Object given) → IsWritableObject given }
{}
