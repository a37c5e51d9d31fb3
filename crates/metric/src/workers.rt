//! The number of workers that share the rows of a map, and the rows of each.

ghost use Rattle.std.specs.Prelude.{◌≡◌, ◌↔◌, ◌-◌, ◌≤◌, IfSome, IsSome};
ghost use Rattle.metric.specs.Workers.{IsWorkers, row_behind};

/// A number of workers, 1 to 16.
#[derive(Clone, Copy, Debug, PartialEq, Eq)]
pub struct Workers {
    pub count: u8,
    ghost few: { IsWorkers count },
}

impl Workers {
    /// This many workers; `None` for 0 or over 16.
    pub fn new(count: u8) -> Option<Self>
        ensures valid { IsSome result ↔ IsWorkers count }
        ensures count { IfSome result (λ workers. workers.count ≡ count) }
    {
        if 1 <= count && count <= 16 {
            Some(Workers { count })
        } else {
            None
        }
    }

    /// The rows of band number `band`, from 1, of the bands that share rows `y0` to `y1 - 1`: its
    /// first row, and the row after its last one. A band may have no rows.
    pub fn band_rows(self, y0: u16, y1: u16, band: u8) -> (u16, u16)
        requires order { y0 ≤ y1 }
        requires first { 1 ≤ band }
        requires last { band ≤ self.count }
        ensures from { result.0 ≡ row_behind y0 y1 self.count (band - 1) }
        ensures to { result.1 ≡ row_behind y0 y1 self.count band }
    {
        self.rows_between(y0, y1, band - 1, band)
    }

    /// The first row after `above` bands from the top, and the first one after `below` bands.
    pub fn rows_between(self, y0: u16, y1: u16, above: u8, below: u8) -> (u16, u16)
        requires order { y0 ≤ y1 }
        requires bands { above ≤ below }
        requires last { below ≤ self.count }
        ensures from { result.0 ≡ row_behind y0 y1 self.count above }
        ensures to { result.1 ≡ row_behind y0 y1 self.count below }
        ensures grows { result.0 ≤ result.1 }
        ensures within { result.1 ≤ y1 }
    {
        let count = self.count;
        (
            row_behind(y0, y1, count, above),
            row_behind(y0, y1, count, below),
        )
    }
}

/// The first row after `bands` bands from the top, of `count`.
fn row_behind(y0: u16, y1: u16, count: u8, bands: u8) -> u16
    requires order { y0 ≤ y1 }
    requires count { IsWorkers count }
    requires bands { bands ≤ count }
    ensures row { result ≡ row_behind y0 y1 count bands }
    ensures within { result ≤ y1 }
{
    let rows = u32::from(y1 - y0);
    let above = u32::from(bands) * rows / u32::from(count);
    y0 + above as u16
}
