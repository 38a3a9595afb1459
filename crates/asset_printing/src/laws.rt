//! The law of printed lines.

ghost use Rattle.std.specs.Prelude.{◌≡◌, ℤ, ◌≤◌, length};
ghost use Rattle.asset_names.specs.declared.names.Ob.{Ob as ObjectName};
ghost use Rattle.asset_names.specs.declared.steps.Step.{Step};
ghost use Rattle.asset_grammar.specs.declared.grammar.Command.TheVariants.{Ask, Object};
ghost use Rattle.asset_grammar.specs.declared.grammar.Line.TheVariants.{Command};
ghost use Rattle.asset_grammar.specs.Grammar.{line_of};
ghost use Rattle.asset_grammar.specs.Lines.{Lacks};
ghost use Rattle.asset_printing.specs.Printed.{object_text, step_text};
ghost use Rattle.asset_grammar.specs.Writable.{IsWritable, IsWritableObject};

/// The printed line of a step or of an object is one line of a script, and says that step or that object. The numbers and
/// values are in range, as those of each `Step` are.
pub fn printed_lines_say_what_was_printed()
    ensures step { (step : Step) → IsWritable step → line_of (step_text step) ≡ Command (Ask step) }
    ensures one_line { (step : Step) → IsWritable step → Lacks 10 (step_text step) }
    ensures short { (step : Step) → IsWritable step → length (step_text step) ≤ 4096 }
    ensures object { (given : ObjectName × ℤ) → IsWritableObject given → line_of (object_text given.0 given.1) ≡ Command (Object given) }
    ensures one_object_line { (given : ObjectName × ℤ) → IsWritableObject given → Lacks 10 (object_text given.0 given.1) }
{}
