use model::Watch;
use order::{Reach, Standing, column, compare, consistent, kth};
use std::test::Fail;

// What stands at this position, as origin and sequence; 99 where nothing does.
fn at(watch: Watch, matrices: &[[u8; 256]], k: u16) -> (u8, u8) {
    kth(watch, matrices, k).map_or((99, 99), |key| (key.origin, key.sequence))
}

fn first_column(a: u8, b: u8, c: u8, d: u8) -> [u8; 16] {
    [a, 0, 0, 0, b, 0, 0, 0, c, 0, 0, 0, d, 0, 0, 0]
}

fn watch_of(f: u32, length: u32) -> Result<Watch, Fail> {
    Watch::new(f, length).map_err(|_| Fail::new("no such watch"))
}

#[test]
fn columns_of_four(rt: HostRuntime) -> Result<(), Fail> {
    let watch = watch_of(1, 63)?;
    assert_eq!(rt; column(watch, &first_column(3, 1, 2, 0), 0), 1);
    assert_eq!(rt; column(watch, &first_column(2, 2, 2, 0), 0), 2);
    assert_eq!(rt; column(watch, &first_column(5, 5, 0, 0), 0), 0);
    assert_eq!(rt; column(watch, &first_column(63, 63, 63, 63), 0), 63);
    assert_eq!(rt; column(watch_of(1, 1)?, &first_column(3, 1, 2, 0), 0), 1);
    assert_eq!(rt; column(watch_of(1, 1)?, &first_column(3, 0, 2, 0), 0), 0);
    Ok(())
}

// A matrix of sixteen stations, of which ten have reached 63 for the last origin, and one more has reached `e`.
fn last_column(e: u8) -> [u8; 256] {
    let mut matrix = [0u8; 256];
    matrix[15] = 63;
    matrix[31] = 63;
    matrix[47] = 63;
    matrix[63] = 63;
    matrix[79] = 63;
    matrix[95] = 63;
    matrix[111] = 63;
    matrix[127] = 63;
    matrix[143] = 63;
    matrix[159] = 63;
    matrix[255] = e;
    matrix
}

#[test]
fn columns_of_sixteen(rt: HostRuntime) -> Result<(), Fail> {
    let watch = watch_of(5, 63)?;
    assert_eq!(rt; column(watch, &last_column(0), 15), 0);
    assert_eq!(rt; column(watch, &last_column(62), 15), 62);
    assert_eq!(rt; column(watch, &last_column(62), 14), 0);
    assert_eq!(rt; column(watch_of(5, 1)?, &last_column(62), 15), 1);
    Ok(())
}

// A matrix of four stations in which three rows have these entries for the first origin and the last.
fn valued(first: u8, last: u8) -> [u8; 256] {
    let mut matrix = [0u8; 256];
    matrix[0] = first;
    matrix[3] = last;
    matrix[4] = first;
    matrix[7] = last;
    matrix[12] = first;
    matrix[15] = last;
    matrix
}

#[test]
fn an_order(rt: HostRuntime) -> Result<(), Fail> {
    let watch = watch_of(1, 2)?;
    let matrices = [valued(1, 1), valued(2, 1), valued(1, 0)];
    assert_eq!(rt; at(watch, &matrices, 0), (0, 1));
    assert_eq!(rt; at(watch, &matrices, 1), (3, 1));
    assert_eq!(rt; at(watch, &matrices, 2), (0, 2));
    assert_eq!(rt; at(watch, &matrices, 3), (99, 99));
    Ok(())
}

#[test]
fn one_matrix_after_the_other(rt: HostRuntime) -> Result<(), Fail> {
    let watch = watch_of(1, 63)?;
    let mut reach = Reach::start();
    assert!(rt; reach.take(watch, &valued(1, 1), 2).is_none());
    assert_eq!(rt; reach.ordered(watch), 2);
    let third = reach.take(watch, &valued(2, 1), 2);
    assert!(rt; third.is_some_and(|key| key.origin == 0 && key.sequence == 2));
    assert!(rt; reach.take(watch, &valued(1, 0), 2).is_none());
    assert!(rt; reach.of(0) == 2 && reach.of(3) == 1 && reach.of(16) == 0);
    assert_eq!(rt; reach.ordered(watch), 3);
    Ok(())
}

#[test]
fn rows(rt: HostRuntime) -> Result<(), Fail> {
    let watch = watch_of(1, 63)?;
    let kept = [1, 0, 2, 0];
    assert_eq!(rt;
        compare(watch, &[0, 1, 2, 0], &kept),
        Standing::Inconsistent
    );
    assert_eq!(rt; compare(watch, &[1, 0, 1, 0], &kept), Standing::Known);
    assert_eq!(rt; compare(watch, &kept, &kept), Standing::Known);
    assert_eq!(rt; compare(watch, &[1, 0, 3, 0], &kept), Standing::Newer);
    assert_eq!(rt;
        compare(watch_of(1, 2)?, &[1, 0, 3, 0], &kept),
        Standing::Known
    );
    assert_eq!(rt; compare(watch, &[1, 0, 2, 0, 9], &kept), Standing::Known);
    assert!(rt; consistent(watch, &[1, 0, 1], &kept) && !consistent(watch, &[0, 1], &kept));
    Ok(())
}
