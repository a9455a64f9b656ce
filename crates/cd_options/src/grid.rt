//! The generated problems: their files are written, and read as any file.
#![tactic(auto)]

ghost use Rattle.std.specs.Prelude.{◌≡◌, ◌≤◌, ◌++◌, codes, IfOk, OnOk};
ghost use Rattle.cd_text.specs.Numerals.{numeral};
ghost use Rattle.cd_read.specs.Formed.{IsBounded, IsFormed};
ghost use Rattle.cd_options.specs.Grid.{IsGrid, atom_text, column_text, columns_text, denial_text, grid_name, grid_text, leads_text, statement_text};

use cd_list::{Copied, Sequence, Text};
use cd_outside::{Bytes, Shelf};
use cd_read::{Problem, read_problem};
use cd_text::put_number;
use std::alloc::{AllocError, Global};

#[tactic(auto, using(std::proofs::Common::append_assoc), unfolding(crate::specs::Grid::atom_text))]
fn put_atom(into: &mut Bytes, i: u32, k: u32) -> Result<(), AllocError>
    ensures { OnOk result (into.new ≡ into.old ++ atom_text i k) }
{
    into.extend(b"r(c")?;
    put_number(into, u64::from(i))?;
    into.extend(b",d")?;
    put_number(into, u64::from(k))?;
    into.extend(b")")?;
    Ok(())
}

/// What stands before the clause of the statement with this number.
#[tactic(auto, using(std::proofs::Common::append_assoc))]
fn put_front(into: &mut Bytes, m: u32) -> Result<(), AllocError>
    ensures { OnOk result (into.new ≡ into.old ++ (codes "cnf(g" ++ (numeral m ++ codes ",axiom,"))) }
{
    into.extend(b"cnf(g")?;
    put_number(into, u64::from(m))?;
    into.extend(b",axiom,")?;
    Ok(())
}

/// The statement of one atom.
#[tactic(auto, using(std::proofs::Common::append_assoc), unfolding(crate::specs::Grid::statement_text))]
fn put_fact(into: &mut Bytes, m: u32, i: u32, k: u32) -> Result<(), AllocError>
    ensures { OnOk result (into.new ≡ into.old ++ statement_text m (atom_text i k)) }
{
    put_front(into, m)?;
    put_atom(into, i, k)?;
    into.extend(b").\n")?;
    Ok(())
}

/// The statement of an atom where another one holds.
#[tactic(auto, using(std::proofs::Common::append_assoc), unfolding(crate::specs::Grid::statement_text, crate::specs::Grid::leads_text))]
fn put_leading(into: &mut Bytes, m: u32, i: u32, k: u32, j: u32, l: u32) -> Result<(), AllocError>
    ensures { OnOk result (into.new ≡ into.old ++ statement_text m (leads_text i k j l)) }
{
    put_front(into, m)?;
    into.extend(b"~")?;
    put_atom(into, i, k)?;
    into.extend(b"|")?;
    put_atom(into, j, l)?;
    into.extend(b").\n")?;
    Ok(())
}

/// The statement that an atom doesn't hold.
#[tactic(auto, using(std::proofs::Common::append_assoc), unfolding(crate::specs::Grid::statement_text, crate::specs::Grid::denial_text))]
fn put_denial(into: &mut Bytes, m: u32, i: u32, k: u32) -> Result<(), AllocError>
    ensures { OnOk result (into.new ≡ into.old ++ statement_text m (denial_text i k)) }
{
    put_front(into, m)?;
    into.extend(b"~")?;
    put_atom(into, i, k)?;
    into.extend(b").\n")?;
    Ok(())
}

#[tactic(auto, using(std::proofs::Common::append_assoc), unfolding(crate::specs::Grid::column_text))]
fn put_column(into: &mut Bytes, i: u32) -> Result<(), AllocError>
    requires { i ≤ 60 }
    ensures { OnOk result (into.new ≡ into.old ++ column_text i) }
{
    put_leading(into, 3 * i + 1, i, 0, i, 1)?;
    put_leading(into, 3 * i + 2, i, 0, i + 1, 0)?;
    put_leading(into, 3 * i + 3, i, 1, i + 1, 1)?;
    Ok(())
}

#[tactic(auto, using(std::proofs::Common::append_assoc))]
fn put_columns(into: &mut Bytes, n: u32) -> Result<(), AllocError>
    requires { n ≤ 60 }
    ensures { OnOk result (into.new ≡ into.old ++ columns_text n) }
{
    for i in 0..n {
        put_column(into, i)?;
    }
    Ok(())
}

/// The file of the grid with this number.
#[tactic(auto, using(std::proofs::Common::append_assoc), unfolding(crate::specs::Grid::grid_text))]
fn grid_text(alloc: Global, n: u32) -> Result<Bytes, AllocError>
    requires { n ≤ 60 }
    ensures { IfOk result (λ text. text ≡ grid_text n) }
{
    let mut text = Sequence::new(alloc);
    put_fact(&mut text, 0, 0, 0)?;
    put_columns(&mut text, n)?;
    put_leading(&mut text, 3 * n + 1, n, 0, n, 1)?;
    put_denial(&mut text, 3 * n + 2, n, 1)?;
    Ok(text)
}

/// Its name.
#[tactic(auto, unfolding(crate::specs::Grid::grid_name))]
fn grid_name(alloc: Global, n: u32) -> Result<Text, AllocError>
    ensures { IfOk result (λ name. name ≡ grid_name n) }
{
    let mut name = Sequence::new(alloc);
    name.extend(b"grid")?;
    put_number(&mut name, u64::from(n))?;
    match std::str::from_utf8(name.as_slice()) {
        Ok(name) => Text::of(alloc, name),
        Err(_) => Err(AllocError),
    }
}

/// The problem of a grid with `n` columns behind its first: 3n + 3 clauses, by which the atoms follow one another from
/// `r(c0,d0)` to `r(cn,d1)`, which is denied. It is what its file is read as.
pub fn grid_problem(alloc: Global, n: u32) -> Result<Problem, AllocError>
    requires some { 1 ≤ n }
    requires few { n ≤ 60 }
    ensures grid { IfOk result (IsGrid n) }
    ensures formed { IfOk result IsFormed }
    ensures bounded { IfOk result IsBounded }
{
    let name = grid_name(alloc, n)?;
    let text = grid_text(alloc, n)?;
    let mut files = Sequence::new(alloc);
    files.push((name.copy(alloc)?, text))?;
    let mut shelf = Shelf::new(alloc, files, Sequence::new(alloc));
    match read_problem(alloc, &mut shelf, &name) {
        Ok(problem) => Ok(problem),
        Err(_) => Err(AllocError),
    }
}
