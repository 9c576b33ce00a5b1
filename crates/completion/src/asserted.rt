//! The asserted rows of roles.
ghost use Rattle.std.specs.Prelude.{◌≡◌, ◌↔◌, ◌⊎◌, IfOk, OnOk, Contains};
ghost use Rattle.completion.specs.Gathered.{row_of_edge};
ghost use Rattle.completion.specs.declared.edges.Edge.{Edge as AnyEdge};

use crate::edges::Edge;
use assert_tables::Assertions;
use dl_base::Row;
use std::alloc::{AllocError, Global};

/// The rows of roles, each once for each individual at which it begins.
pub(crate) fn role_rows(alloc: Global, rows: &Assertions) -> Result<Vec<Edge>, AllocError>
    ensures { IfOk result (λ edges. (x : AnyEdge) → Contains edges.items x ↔ Contains rows.now (row_of_edge x)) }
{
    let mut edges = Vec::new(alloc);
    let mut after = None;
    while let Some(individual) = rows.next_individual(after) {
        add_from(&mut edges, rows, individual)?;
        after = Some(individual);
    }
    Ok(edges)
}

/// Adds the rows of roles that begin at the individual.
fn add_from(edges: &mut Vec<Edge>, rows: &Assertions, individual: u32) -> Result<(), AllocError>
    ensures { OnOk result ((x : AnyEdge) → Contains edges.new.items x
        ↔ (((x.from ≡ individual) × Contains rows.now (row_of_edge x)) ⊎ Contains edges.old.items x)) }
{
    for row in rows.rows_naming(individual) {
        push_from(edges, row, individual)?;
    }
    Ok(())
}

/// Adds the row where it is of a role and begins at the individual.
fn push_from(edges: &mut Vec<Edge>, row: Row, individual: u32) -> Result<(), AllocError>
    ensures { OnOk result ((x : AnyEdge) → Contains edges.new.items x
        ↔ (((x.from ≡ individual) × (row_of_edge x ≡ row)) ⊎ Contains edges.old.items x)) }
{
    if let Row::Role { role, from, to } = row {
        if from == individual {
            edges.push(Edge { role, from, to })?;
        }
    }
    Ok(())
}
