//! Which columns of a row a side of a polygon leaves.

ghost use Rattle.std.specs.Prelude.{◌≡◌, ℤ, pos, unsigned_abs, ◌*◌, ◌≤◌, ◌≤ℤ◌, ◌<ℤ◌, ◌↔◌};
ghost use Rattle.std.specs.Prelude.{◌+ℤ◌, ◌-ℤ◌, ◌*ℤ◌, neg_ℤ};
ghost use Rattle.footprint.specs.Polygon.{IsNear, IsNearBy, Passes, line};
ghost use Rattle.footprint.specs.Sides.{IsFactor, IsLine, IsOn, IsReach, IsRow};

use crate::corner::{Corner, STEPS};
use crate::span::Span;

/// The steps from one corner's column or row to another's.
pub fn apart(from: i32, to: i32) -> i64
    requires from_near { IsNearBy from }
    requires to_near { IsNearBy to }
    ensures value { result ≡ to -ℤ from }
    ensures few { IsFactor result }
{
    i64::from(to) - i64::from(from)
}

/// The steps from a corner's row down to the line above a row of cells.
fn below(row: i64, from: i32) -> i64
    requires row_near { IsLine row }
    requires from_near { IsNearBy from }
    ensures value { result ≡ line row -ℤ from }
    ensures few { IsFactor result }
{
    row * STEPS - i64::from(from)
}

/// The product of two numbers of 31 bits and a sign.
pub fn product(a: i64, b: i64) -> i64
    requires a_few { IsFactor a }
    requires b_few { IsFactor b }
    ensures value { result ≡ a *ℤ b }
    ensures few { unsigned_abs result ≤ 4611686014132420609 }
{
    a * b
}

/// The line of a row that a side leaves freer.
fn freer_line(dx: i64, row: i64) -> i64
    requires { IsRow row }
    ensures rightwards { pos 0 <ℤ dx → result ≡ row +ℤ pos 1 }
    ensures leftwards { dx ≤ℤ pos 0 → result ≡ row }
    ensures near { IsLine result }
{
    if dx > 0 { row + 1 } else { row }
}

/// How far the side leaves a row free, in squares of steps times columns.
fn reach(a: Corner, b: Corner, row: i64) -> i64
    requires a_near { IsNear a }
    requires b_near { IsNear b }
    requires row_near { IsRow row }
    ensures value { IsReach a b row result }
    ensures few { unsigned_abs result ≤ 9223372028264841218 }
{
    let dx = apart(a.x, b.x);
    let edge = freer_line(dx, row);
    let across = product(dx, below(edge, a.y));
    let down = product(apart(a.y, b.y), i64::from(a.x));
    across + down
}

/// The last column that a side down leaves.
fn last_column(free: i64, dy: i64) -> i64
    requires some { pos 0 <ℤ dy }
    requires dy_few { IsFactor dy }
    requires free_few { unsigned_abs free ≤ 9223372028264841218 }
    ensures { (x : ℤ) → (x ≤ℤ result) ↔ ((x *ℤ pos (unsigned_abs dy * 65536)) ≤ℤ (free -ℤ pos 1)) }
{
    (free - 1).div_euclid(dy * STEPS)
}

/// The first column that a side up leaves.
fn first_column(free: i64, dy: i64) -> i64
    requires some { dy <ℤ pos 0 }
    requires dy_few { IsFactor dy }
    requires free_few { unsigned_abs free ≤ 9223372028264841218 }
    ensures { (x : ℤ) → (result ≤ℤ x)
        ↔ (neg_ℤ free <ℤ ((x +ℤ pos 1) *ℤ pos (unsigned_abs dy * 65536))) }
{
    let rise = -dy;
    let against = -free;
    against.div_euclid(rise * STEPS)
}

/// The last of the columns up to `last` that a side down leaves.
fn last_left(free: i64, dy: i64, last: i64) -> i64
    requires some { pos 0 <ℤ dy }
    requires dy_few { IsFactor dy }
    requires free_few { unsigned_abs free ≤ 9223372028264841218 }
    ensures { (x : ℤ) → (x ≤ℤ result) ↔ ((x ≤ℤ last)
        × ((x *ℤ pos (unsigned_abs dy * 65536)) ≤ℤ (free -ℤ pos 1))) }
{
    if 0 <= last && last <= 4096 && last * (dy * STEPS) < free {
        return last;
    }
    last.min(last_column(free, dy))
}

/// The first of the columns from `first` on that a side up leaves.
fn first_left(free: i64, dy: i64, first: i64) -> i64
    requires some { dy <ℤ pos 0 }
    requires dy_few { IsFactor dy }
    requires free_few { unsigned_abs free ≤ 9223372028264841218 }
    ensures { (x : ℤ) → (result ≤ℤ x) ↔ ((first ≤ℤ x)
        × (neg_ℤ free <ℤ ((x +ℤ pos 1) *ℤ pos (unsigned_abs dy * 65536)))) }
{
    if 0 <= first && first <= 4096 && -free < (first + 1) * (-dy * STEPS) {
        return first;
    }
    first.max(first_column(free, dy))
}

/// The columns of the span whose cell in this row passes the side.
pub fn cut(a: Corner, b: Corner, row: i64, span: Span) -> Span
    requires a_near { IsNear a }
    requires b_near { IsNear b }
    requires row_near { IsRow row }
    ensures { (x : ℤ) → IsOn result.first result.last x
        ↔ (IsOn span.first span.last x × Passes a b x row) }
{
    let dy = apart(a.y, b.y);
    let free = reach(a, b, row);
    if dy > 0 {
        Span {
            first: span.first,
            last: last_left(free, dy, span.last),
        }
    } else if dy < 0 {
        Span {
            first: first_left(free, dy, span.first),
            last: span.last,
        }
    } else if free > 0 {
        span
    } else {
        Span { first: 1, last: 0 }
    }
}
