//! The atoms of values and uses, told from the text of a body.
ghost use Rattle.std.specs.Prelude.{◌≡◌, ◌∷◌, ◌++◌, true, IfOk};
ghost use Rattle.std.specs.List.{Any, Contains};
ghost use Rattle.std.specs.List.Sorted.{IsStrictlySortedBy};
ghost use Rattle.core_term.specs.declared.term.SourceAtom.TheVariants.{Choice};
ghost use Rattle.core_term.specs.AtomTables.{settled, row_at, expr_atoms, own_atoms, used_atoms, last_site, add_values, add_value, uses_of, uses_in};

use crate::table::AtomTable;
use crate::{CoreAct, CoreExpr, CoreKind, CoreTerm, SourceAtom};
use std::alloc::{AllocError, Global};

/// Puts items in order, each once.
fn sort_once<T: Ord + Drop>(items: &mut Vec<T>)
    ensures sorted { IsStrictlySortedBy T.cmp items.new.items }
    ensures sound { (item : T) → Contains items.new.items item → Contains items.old.items item }
    ensures whole { (item : T) → Contains items.old.items item → Any (λ other. T.eq item other ≡ true) items.new.items }
{
    items.sort_unstable();
    items.dedup();
}

/// Puts atoms in order, each once.
pub fn settle(atoms: &mut Vec<SourceAtom>)
    ensures { atoms.new.items ≡ settled atoms.old.items }
{
    sort_once(atoms);
}

/// Adds the atoms of an expression in the act of a site at the end of `atoms`, from those of the variables.
fn add_expr(
    expr: &CoreExpr,
    site: u32,
    values: &AtomTable,
    atoms: &mut Vec<SourceAtom>,
) -> Result<(), AllocError>
    ensures { IfOk result (λ _. atoms.new.items ≡ atoms.old.items ++ expr_atoms values.now site expr.now) }
{
    match expr {
        CoreExpr::Lit(_) => Ok(()),
        CoreExpr::Reg(reg) => {
            atoms.push(SourceAtom::Reg { site, reg: *reg })?;
            Ok(())
        }
        CoreExpr::Var(var) | CoreExpr::Slice { var, .. } => add_row(values.row(*var), atoms),
        CoreExpr::Not(operand) => add_expr(operand, site, values, atoms),
        CoreExpr::Bin(_, one, other) => {
            add_expr(one, site, values, atoms)?;
            add_expr(other, site, values, atoms)
        }
        CoreExpr::Choose(cond, one, other) => {
            add_expr(cond, site, values, atoms)?;
            add_expr(one, site, values, atoms)?;
            add_expr(other, site, values, atoms)
        }
    }
}

/// Adds a row at the end of `atoms`.
fn add_row(row: &[SourceAtom], atoms: &mut Vec<SourceAtom>) -> Result<(), AllocError>
    ensures { IfOk result (λ _. atoms.new.items ≡ atoms.old.items ++ row.now) }
{
    atoms.extend_from_slice(row)
}

/// The atoms of the value of an act that has it from no act inside it.
fn own_atoms(
    alloc: Global,
    act: &CoreAct,
    values: &AtomTable,
) -> Result<Vec<SourceAtom>, AllocError>
    ensures { IfOk result (λ atoms. atoms.items ≡ settled (own_atoms values.now act.now.site act.now.kind)) }
{
    let mut atoms = Vec::new(alloc);
    match &act.kind {
        CoreKind::Recv { .. } => atoms.push(SourceAtom::Wire { site: act.site })?,
        CoreKind::Wait { var } => add_row(values.row(*var), &mut atoms)?,
        CoreKind::Pure(expr) => add_expr(expr, act.site, values, &mut atoms)?,
        _ => {}
    }
    settle(&mut atoms);
    Ok(atoms)
}

/// The atoms of the expression that an act uses.
fn used_atoms(
    alloc: Global,
    act: &CoreAct,
    values: &AtomTable,
) -> Result<Vec<SourceAtom>, AllocError>
    ensures { IfOk result (λ atoms. atoms.items ≡ settled (used_atoms values.now act.now.site act.now.kind)) }
{
    let mut atoms = Vec::new(alloc);
    match &act.kind {
        CoreKind::Set { value, .. } => add_expr(value, act.site, values, &mut atoms)?,
        CoreKind::Send { value, .. } => add_expr(value, act.site, values, &mut atoms)?,
        CoreKind::If { cond, .. } => add_expr(cond, act.site, values, &mut atoms)?,
        _ => {}
    }
    settle(&mut atoms);
    Ok(atoms)
}

/// The atoms of the value of an `if`, from those of the last acts of its sides.
fn side_atoms(
    alloc: Global,
    site: u32,
    one: u32,
    other: u32,
    values: &AtomTable,
) -> Result<Vec<SourceAtom>, AllocError>
    ensures { IfOk result
        (λ atoms. atoms.items ≡ settled (Choice site ∷ (row_at values.now one ++ row_at values.now other))) }
{
    let mut atoms = Vec::new(alloc);
    atoms.push(SourceAtom::Choice { site })?;
    add_row(values.row(one), &mut atoms)?;
    add_row(values.row(other), &mut atoms)?;
    settle(&mut atoms);
    Ok(atoms)
}

/// The site of the last act of a chain.
fn last_site(term: &CoreTerm) -> u32
    ensures { result ≡ last_site term.now }
{
    match term {
        CoreTerm::One(act) => act.site,
        CoreTerm::Then(_, rest) | CoreTerm::Both(_, rest) => last_site(rest),
    }
}

/// Adds a row for each act of a term, with the atoms of its value.
#[cycle(values)]
pub fn add_values(alloc: Global, term: &CoreTerm, values: &mut AtomTable) -> Result<(), AllocError>
    ensures { IfOk result (λ _. values.new ≡ add_values values.old term.now) }
{
    match term {
        CoreTerm::One(act) => add_value(alloc, act, values),
        CoreTerm::Then(act, rest) | CoreTerm::Both(act, rest) => {
            add_value(alloc, act, values)?;
            add_values(alloc, rest, values)
        }
    }
}

#[cycle(values)]
fn add_value(alloc: Global, act: &CoreAct, values: &mut AtomTable) -> Result<(), AllocError>
    ensures { IfOk result (λ _. values.new ≡ add_value values.old act.now.site act.now.kind) }
{
    let place = values.len();
    let own = own_atoms(alloc, act, values)?;
    values.add(own)?;
    match &act.kind {
        CoreKind::If { yes, no, word, .. } => {
            add_values(alloc, yes, values)?;
            match no {
                None => Ok(()),
                Some(other) => {
                    add_values(alloc, other, values)?;
                    match word {
                        None => Ok(()),
                        Some(_) => {
                            let atoms = side_atoms(
                                alloc,
                                act.site,
                                last_site(yes),
                                last_site(other),
                                values,
                            )?;
                            values.put(place, atoms);
                            Ok(())
                        }
                    }
                }
            }
        }
        CoreKind::Block(inner) => {
            add_values(alloc, inner, values)?;
            let mut atoms = Vec::new(alloc);
            add_row(values.row(last_site(inner)), &mut atoms)?;
            values.put(place, atoms);
            Ok(())
        }
        _ => Ok(()),
    }
}

/// Adds a row for each act of a term, with the atoms of what it uses, from the table of values.
#[cycle(uses)]
pub fn add_uses(
    alloc: Global,
    term: &CoreTerm,
    values: &AtomTable,
    uses: &mut AtomTable,
) -> Result<(), AllocError>
    ensures { IfOk result (λ _. uses.new ≡ uses.old ++ uses_of values.now term.now) }
{
    match term {
        CoreTerm::One(act) => add_use(alloc, act, values, uses),
        CoreTerm::Then(act, rest) | CoreTerm::Both(act, rest) => {
            add_use(alloc, act, values, uses)?;
            add_uses(alloc, rest, values, uses)
        }
    }
}

#[cycle(uses)]
fn add_use(
    alloc: Global,
    act: &CoreAct,
    values: &AtomTable,
    uses: &mut AtomTable,
) -> Result<(), AllocError>
    ensures { IfOk result
        (λ _. uses.new ≡ uses.old ++
        (settled (used_atoms values.now act.now.site act.now.kind) ∷ uses_in values.now act.now.kind)) }
{
    let used = used_atoms(alloc, act, values)?;
    uses.add(used)?;
    match &act.kind {
        CoreKind::If { yes, no, .. } => {
            add_uses(alloc, yes, values, uses)?;
            match no {
                None => Ok(()),
                Some(other) => add_uses(alloc, other, values, uses),
            }
        }
        CoreKind::Block(inner) => add_uses(alloc, inner, values, uses),
        _ => Ok(()),
    }
}
