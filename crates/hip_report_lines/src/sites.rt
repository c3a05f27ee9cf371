ghost use Rattle.std.specs.Prelude.{slice_get};
ghost use Rattle.hip_io.specs.Sinks.{Writes};
ghost use Rattle.hip_tree.specs.Sites.{block_of};
ghost use Rattle.hip_report_lines.specs.Reports.{site_text};
ghost use Rattle.hip_runs.specs.Places.{label_of};
ghost use Rattle.hip_sound.specs.NumberedNames.{name_in};

use hip_answers::put_number;
use hip_io::{Put, Sink, put_after};
use hip_tree::{Program, Site};

fn put_function<S: Sink>(before: Put, out: &mut S, program: &Program, function: usize) -> Put
    ensures { Writes before result (S.state out.old) (S.state out.new)
        (name_in (slice_get program.now.functions function)) }
{
    match program.functions.as_slice().get(function) {
        Some(function) => put_after(before, out, function.name.as_slice()),
        None => put_after(before, out, b""),
    }
}

fn put_label<S: Sink>(before: Put, out: &mut S, program: &Program, site: Site) -> Put
    ensures { Writes before result (S.state out.old) (S.state out.new)
        (label_of (block_of program.now site.function site.block)) }
{
    match program.functions.as_slice().get(site.function) {
        Some(function) => match function.blocks.as_slice().get(site.block) {
            Some(block) => put_after(before, out, block.label.as_slice()),
            None => put_after(before, out, b""),
        },
        None => put_after(before, out, b""),
    }
}

/// A site of the program, by the names of its function and its block. The name is empty if the program has no such
/// function or block.
pub fn put_site<S: Sink>(before: Put, out: &mut S, program: &Program, site: Site) -> Put
    ensures { Writes before result (S.state out.old) (S.state out.new) (site_text program.now site) }
{
    let put = put_after(before, out, b"@");
    let put = put_function(put, out, program, site.function);
    let put = put_after(put, out, b":");
    let put = put_label(put, out, program, site);
    let put = put_after(put, out, b":");
    put_number(put, out, site.index as u128)
}
