//! Whether polygons hit obstacles, over a map that is read word by word. None allocates memory.

ghost use Rattle.std.specs.Prelude.{◌≡◌, ◌≢◌};
ghost use Rattle.libclearmap.specs.Footprints.{SaysHit, edge_status, fault_status, hits_status};
ghost use Rattle.libclearmap.specs.Footprints.{polygon_status};
ghost use Rattle.libclearmap.specs.Settings.{edge_numbered};
ghost use Rattle.libclearmap.specs.Statuses.{first_wrong};

use crate::setting::edge_of;
use crate::status::{BENT, CORNERS, DONE, EDGE, FAR};
use clearance::Rows;
use footprint::{Corner, PolygonFault, fault_of, hits};

/// Writes 1 where the polygon hits an obstacle of the map, and 0 where it doesn't. `range` is the
/// status of the bytes that mark an obstacle, which is told after any other fault.
pub fn hits_in<R: Rows>(
    rows: &mut R,
    edge: u32,
    range: u32,
    corners: &[Corner],
    hit: &mut u8,
) -> u32
    ensures hit { result ≡ DONE → SaysHit (R.cells rows.old) (edge_numbered edge) corners.now
        hit.new }
    ensures status { result ≡ first_wrong (hits_status edge corners.now) range }
    ensures refused { result ≢ DONE → hit.new ≡ hit.old }
{
    if edge > 1 {
        return EDGE;
    }
    if let Some(fault) = fault_of(corners) {
        return fault_status(fault);
    }
    if range == DONE {
        *hit = u8::from(hits(rows, edge_of(edge), corners));
    }
    range
}

/// The status of what is wrong with a polygon.
pub fn fault_status(fault: PolygonFault) -> u32
    ensures { result ≡ fault_status (Some fault) }
{
    match fault {
        PolygonFault::Number => CORNERS,
        PolygonFault::Far => FAR,
        PolygonFault::Bent => BENT,
    }
}
