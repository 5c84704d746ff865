//! Happy paths, with values that were worked out by hand.
ghost use Rattle.pf_geom.specs.Plane.{IsInRange, IsWithin, most_coordinate};

use pf_geom::{MOST_COORDINATE, Point, Turn, len2, middle, orient, turn_of};

const LIMIT: i32 = MOST_COORDINATE;

fn at(x: i32, y: i32) -> Point
    requires x_within { IsWithin most_coordinate x }
    requires y_within { IsWithin most_coordinate y }
    ensures { IsInRange result }
{
    Point { x, y }
}

#[test]
fn orients_the_corners_of_a_square(rt: HostRuntime) {
    let (p, q, r) = (at(0, 0), at(4, 0), at(4, 4));
    assert_eq!(rt; orient(p, q, r), 16);
    assert_eq!(rt; orient(q, p, r), -16);
    assert_eq!(rt; orient(p, q, at(8, 0)), 0);
    assert_eq!(rt; orient(at(8, 0), at(4, -2), at(4, 2)), -16);
}

#[test]
fn orients_the_widest_triangle(rt: HostRuntime) {
    let (p, q, r) = (at(-LIMIT, -LIMIT), at(LIMIT, -LIMIT), at(LIMIT, LIMIT));
    assert_eq!(rt; orient(p, q, r), 288230376151711744);
}

#[test]
fn turns_left_and_right_and_not_at_all(rt: HostRuntime) {
    let (p, q) = (at(0, 0), at(3, 1));
    assert_eq!(rt; turn_of(p, q, at(0, 1)), Turn::Left);
    assert_eq!(rt; turn_of(p, q, at(-6, -2)), Turn::Flat);
    assert_eq!(rt; turn_of(p, q, at(4, 1)), Turn::Right);
}

#[test]
fn squares_the_distance(rt: HostRuntime) {
    assert_eq!(rt; len2(at(1, 2), at(4, -2)), 25);
    assert_eq!(rt;
        len2(at(-LIMIT, -LIMIT), at(LIMIT, LIMIT)),
        576460752303423488
    );
}

#[test]
fn finds_the_middle(rt: HostRuntime) {
    assert_eq!(rt; middle(at(0, 0), at(4, 2)), Some(at(2, 1)));
    assert_eq!(rt; middle(at(4, 2), at(0, 0)), Some(at(2, 1)));
    assert_eq!(rt; middle(at(-3, 5), at(1, -9)), Some(at(-1, -2)));
    assert_eq!(rt; middle(at(-5, -7), at(-5, -7)), Some(at(-5, -7)));
    assert_eq!(rt; middle(at(7, -1), at(-7, 1)), Some(at(0, 0)));
}

#[test]
fn finds_no_middle_where_a_sum_is_odd(rt: HostRuntime) {
    assert_eq!(rt; middle(at(0, 0), at(3, 2)), None);
    assert_eq!(rt; middle(at(0, 0), at(4, 1)), None);
    assert_eq!(rt; middle(at(-1, -1), at(0, 0)), None);
    assert_eq!(rt; middle(at(-2, 6), at(-6, -1)), None);
    assert_eq!(rt; middle(at(-3, 0), at(2, 0)), None);
}

#[test]
fn finds_the_middle_at_the_limits(rt: HostRuntime) {
    let (low, high) = (at(-LIMIT, -LIMIT), at(LIMIT, LIMIT));
    assert_eq!(rt; middle(low, high), Some(at(0, 0)));
    assert_eq!(rt; middle(low, low), Some(low));
    assert_eq!(rt; middle(high, high), Some(high));
    assert_eq!(rt;
        middle(high, at(LIMIT - 2, -LIMIT + 2)),
        Some(at(LIMIT - 1, 1))
    );
    assert_eq!(rt; middle(high, at(LIMIT - 1, LIMIT)), None);
    assert_eq!(rt; middle(low, at(-LIMIT, 1 - LIMIT)), None);
}

#[test]
fn cuts_a_quadrilateral_two_ways(rt: HostRuntime) {
    let (p, q, c, d) = (at(0, 0), at(8, 0), at(4, 2), at(4, -2));
    assert_eq!(rt; orient(p, q, c), 16);
    assert_eq!(rt; orient(q, p, d), 16);
    assert_eq!(rt; orient(p, d, c), 16);
    assert_eq!(rt; orient(q, c, d), 16);
}
