//! What is written for each cell of a range of rows: its nearest obstacle, or only its distance.

ghost use Rattle.std.specs.Prelude.{◌≡◌, ℕ, IfErr, List, OnOk};
ghost use Rattle.metric.specs.Kind.{distance_of};
ghost use Rattle.metric.specs.declared.edge.Edge.{Edge};
ghost use Rattle.bits.specs.Cells.{Cells};
ghost use Rattle.field.specs.Bands.{HasRoom};

use crate::near::ClearmapNear;
use field::{Batch, fill, measure};
use metric::{Chess, City, Euclid2, MetricKind, NoMemory};
use std::alloc::Global;

/// An answer for a cell.
pub trait TableCell: Copy {
    /// These are the answers of all cells of the rows from one up to but not including another, in
    /// row-major order.
    ghost are_answers: { (ℕ → ℕ → ℕ) → Cells → Edge → ℕ → ℕ → List Self → Type 0 };

    /// Fills `cells` with the answers of the cells of a batch, by this metric.
    ///
    /// Fails only when out of memory, before it writes anything.
    fn fill(
        alloc: Global,
        kind: MetricKind,
        batch: &Batch<'_>,
        cells: &mut [Self],
    ) -> Result<(), NoMemory>
        requires room { HasRoom batch.now.bitmap.now batch.now.y0 batch.now.y1 cells.old }
        ensures rows { OnOk result (are_answers (distance_of kind) batch.now.bitmap.now
            batch.now.edge batch.now.y0 batch.now.y1 cells.new) }
        ensures kept { IfErr result (λ _. cells.new ≡ cells.old) };
}

impl TableCell for ClearmapNear {
    ghost use Rattle.field.specs.Bands.{AreAnswers};
    ghost use Rattle.libclearmap.specs.Kept.{kept_nothing, near_kept};

    ghost are_answers = { AreAnswers (λ distance x y kept. near_kept kept) kept_nothing };

    fn fill(
        alloc: Global,
        kind: MetricKind,
        batch: &Batch<'_>,
        cells: &mut [Self],
    ) -> Result<(), NoMemory> {
        match kind {
            MetricKind::Euclid2 => fill::<Euclid2, ClearmapNear>(alloc, batch, cells),
            MetricKind::City => fill::<City, ClearmapNear>(alloc, batch, cells),
            MetricKind::Chess => fill::<Chess, ClearmapNear>(alloc, batch, cells),
        }
    }
}

impl TableCell for u32 {
    ghost use Rattle.libclearmap.specs.Distances.{AreDistances};

    ghost are_answers = { AreDistances };

    fn fill(
        alloc: Global,
        kind: MetricKind,
        batch: &Batch<'_>,
        cells: &mut [Self],
    ) -> Result<(), NoMemory> {
        match kind {
            MetricKind::Euclid2 => measure::<Euclid2>(alloc, batch, cells),
            MetricKind::City => measure::<City>(alloc, batch, cells),
            MetricKind::Chess => measure::<Chess>(alloc, batch, cells),
        }
    }
}
