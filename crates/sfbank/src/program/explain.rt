//! The command `explain`.
ghost use Rattle.program_commands.specs.declared.explain.Topic.TheVariants.{Number, Name};
ghost use Rattle.sfbank.specs.Outputs.{PrintsExplanation};

use super::outputs::print;
use program_commands::Topic;
use program_explanations::{Explanations, GeneratorTable, explain as explanation_of, explain_name};
use program_reports::{Fault, KnowsError, RunFault, STANDARD_OUTPUT};
use std::alloc::Global;
use std::io::Write;

/// Writes the text about a topic to the standard output.
pub(crate) fn explain<'a, O: Write + KnowsError>(
    alloc: Global,
    topic: Topic<'a>,
    output: &mut O,
) -> Result<(), Fault<'a>>
    ensures { PrintsExplanation topic.entry (O.contents output.old) (O.contents output.new) result }
{
    match topic {
        Topic::Number(number) => explain_number(number, output),
        Topic::Name(name) => explain_named(alloc, name, output),
        Topic::Generators => print(&GeneratorTable, output),
    }
}

fn explain_number<'a, O: Write + KnowsError>(number: u32, output: &mut O) -> Result<(), Fault<'a>>
    ensures { PrintsExplanation (Number number) (O.contents output.old) (O.contents output.new) result }
{
    match explanation_of(number) {
        Some(explanation) => print(&explanation, output),
        None => Err(Fault::NoNumber(number)),
    }
}

fn explain_named<'a, O: Write + KnowsError>(
    alloc: Global,
    name: &'a str,
    output: &mut O,
) -> Result<(), Fault<'a>>
    ensures { PrintsExplanation (Name name.entry) (O.contents output.old) (O.contents output.new) result }
{
    let Ok(found) = explain_name(alloc, name) else {
        return Err(Fault::Run(RunFault::Memory, STANDARD_OUTPUT));
    };
    let found = found.as_slice();
    if found.is_empty() {
        return Err(Fault::NoName(name));
    }
    print(&Explanations(found), output)
}
