//! The totals of what was declared.
ghost use Rattle.std.specs.Prelude.{◌≡◌, ◌+◌, ◌∷◌, [], ◌++◌, List, reverse};
ghost use Rattle.ec_text.specs.Puts.{Puts};
ghost use Rattle.ec_core.specs.Counts.{cell_value};
ghost use Rattle.ec_core.specs.Standing.{StandsFor};
ghost use Rattle.ec_core.specs.declared.act.Entry.{Entry};
ghost use Rattle.ec_heading.specs.Spelling.{lines_text};
ghost use Rattle.evc_engine.specs.Texts.{totals_of, cell_lines, cell_line, count_line, totals_by};

use ec_core::World;
use ec_count::{CellId, Target};
use ec_text::Output;
use ec_trace::Heading;
use std::io::Write;

/// Puts the line of one count.
fn put_count<W: Write>(out: &mut Output<'_, W>, sort: &[u8], name: &[u8], count: u64)
    ensures { Puts out.old out.new (count_line sort.now name.now count ++ 10 ∷ []) }
{
    out.put(sort);
    out.put(name);
    out.put(b" ");
    out.put_number(count);
    out.put(b"\n");
}

/// Puts the line of one cell of a block, as `cell C[1] 5`.
fn put_cell<W: Write>(out: &mut Output<'_, W>, name: &[u8], place: u64, value: u64)
    ensures { Puts out.old out.new (cell_line name.now place value ++ 10 ∷ []) }
{
    out.put(b"cell ");
    out.put(name);
    out.put(b"[");
    out.put_number(place);
    out.put(b"] ");
    out.put_number(value);
    out.put(b"\n");
}

/// Returns the value of the cell at an index of a block, 0 if it is not declared.
#[tactic(auto, using(crate::proofs::Undeclared::cell_shown, crate::proofs::Undeclared::far_cell))]
fn value_at(world: &World, first: CellId, place: usize) -> u64
    ensures { (h : List Entry) → StandsFor world.now h → result ≡ cell_value (first + place) (reverse h) }
{
    match CellId::new(first.get().saturating_add(place)) {
        Some(cell) => world.cell(cell).unwrap_or(0),
        None => 0,
    }
}

/// Puts the lines of the cells of a block.
fn put_cells<W: Write>(out: &mut Output<'_, W>, world: &World, name: &[u8], first: CellId, n: usize)
    ensures { (h : List Entry) → StandsFor world.now h
        → Puts out.old out.new (lines_text (cell_lines name.now (reverse h) first 0 n)) }
{
    for place in 0..n {
        put_cell(out, name, place as u64, value_at(world, first, place));
    }
}

/// Puts the totals of the target of a word.
fn put_target<W: Write>(out: &mut Output<'_, W>, world: &World, word: &[u8], target: &Target)
    ensures { (h : List Entry) → StandsFor world.now h
        → Puts out.old out.new (lines_text (totals_of (reverse h) word.now target.now)) }
{
    match *target {
        Target::Event(event) => {
            let total = world.total(event).unwrap_or(0);
            put_count(out, b"eventcount ", word, total);
        }
        Target::Sequencer(sequencer) => {
            let issued = world.issued(sequencer).unwrap_or(0);
            put_count(out, b"sequencer ", word, issued);
        }
        Target::Cells(first, n) => put_cells(out, world, word, first, n),
        Target::Worker(_) => {}
        Target::Group(_) => {}
    }
}

/// Puts the totals of all that a header declares: in the order of the declarations, and of the
/// objects of each.
pub fn put_totals<W: Write>(out: &mut Output<'_, W>, heading: &Heading, world: &World)
    ensures { (h : List Entry) → StandsFor world.now h
        → Puts out.old out.new (lines_text (totals_by (reverse h) heading.now.words)) }
{
    let words = heading.words();
    for place in 0..words.len() {
        if let Some((word, target)) = words.at(place) {
            put_target(out, world, word, &target);
        }
    }
}
