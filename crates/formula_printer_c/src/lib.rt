// The formula's text for C: tools/formula_program reads the input and says what failed.
#![tactic(auto)]

ghost use Rattle.formula_printer.specs.Output.{Ends, input_status};

// Prints what an input asks for: the byte m, then the instance. Answers the exit status.
#[unsafe(no_mangle)]
pub extern "C" fn runglaet_formula_of(input: &[u8]) -> u32
    ensures { Ends (input_status input.now) result }
{
    u32::from(formula_printer::print(input))
}
