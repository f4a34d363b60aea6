ghost use Rattle.std.specs.Prelude.{ℕ};

use model::{Watch, Word, bearable, certified, names, ordered, tally, with, within, without};
use order::unbroken;
use std::test::Fail;

#[derive(PartialEq, Eq, Debug, Drop)]
struct Letter(u8);

impl Word for Letter {
    ghost Value = { ℕ };

    ghost means = { λ l. l.0 };

    fn same(&self, other: &Letter) -> bool {
        self == other
    }
}

fn spelt(found: Option<&Letter>) -> u8 {
    found.map_or(0, |word| word.0)
}

const U: Option<Letter> = Some(Letter(7));

const V: Option<Letter> = Some(Letter(8));

#[test]
fn sets_of_stations(rt: HostRuntime) {
    assert!(rt; names(0b101, 2) && !names(0b101, 1) && !names(0xffff, 16));
    assert!(rt; with(0b101, 15) == 0x8005 && with(0b101, 16) == 0b101);
    assert!(rt; without(0x8005, 15) == 0b101 && without(0b101, 1) == 0b101);
    assert!(rt; within(0xf, 4) && !within(0x1f, 4) && within(0xffff, 16));
    assert!(rt; bearable(0b1000, 4, 1) && !bearable(0b11, 4, 1) && !bearable(0b10000, 4, 1));
    assert!(rt; bearable(0xf800, 16, 5) && !bearable(0xfc00, 16, 5));
}

#[test]
fn certificates_of_four(rt: HostRuntime) {
    assert_eq!(rt; spelt(certified(&[U, U, V, None], 0, 1)), 0);
    assert_eq!(rt; spelt(certified(&[U, U, U, None], 0, 1)), 7);
    assert_eq!(rt; spelt(certified(&[None, U, U, U], 0, 1)), 0);
    assert_eq!(rt; spelt(certified(&[U, V, V, V], 0, 1)), 0);
    assert_eq!(rt; spelt(certified(&[U, U, U, U], 4, 1)), 0);
}

#[test]
fn ordered_of_four(rt: HostRuntime) {
    assert_eq!(rt; spelt(ordered(&[U, U, V, V], 1)), 0);
    assert_eq!(rt; spelt(ordered(&[V, U, U, U], 1)), 7);
    assert_eq!(rt; tally(&[V, U, U, U], &Letter(7)), 3);
}

#[test]
fn ordered_of_sixteen(rt: HostRuntime) {
    let ten = [V, V, V, V, V, V, U, U, U, U, U, U, U, U, U, U];
    assert_eq!(rt; spelt(ordered(&ten, 5)), 0);
    assert_eq!(rt; spelt(certified(&ten, 6, 5)), 0);
    let eleven = [V, V, V, V, V, U, U, U, U, U, U, U, U, U, U, U];
    assert_eq!(rt; spelt(ordered(&eleven, 5)), 7);
    assert_eq!(rt; spelt(certified(&eleven, 15, 5)), 7);
    assert_eq!(rt; spelt(certified(&eleven, 0, 5)), 0);
}

#[test]
fn longest_runs(rt: HostRuntime) -> Result<(), Fail> {
    let places = [U, U, U, None, V, V, None, V, U, V, V, V, U, U, U, U];
    let watch = Watch::new(1, 63).map_err(|_| Fail::new("a watch of 63"))?;
    assert_eq!(rt; unbroken(watch, &places, 0), 2);
    assert_eq!(rt; unbroken(watch, &places, 3), 0);
    let short = Watch::new(1, 1).map_err(|_| Fail::new("a watch of 1"))?;
    assert_eq!(rt; unbroken(short, &places, 0), 1);
    Ok(())
}
