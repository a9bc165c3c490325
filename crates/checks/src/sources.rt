// Feature sources: the set of eight bits, the list of refused features, and resolvers over both.
ghost use Rattle.features.specs.Features.{has};

use features::BtfFeature::*;
use features::{BtfFeature, BtfFeatureResolver, FeatureSet, FeatureSource, RefusedFeatures};
use std::process::Abort;

const FEATURES: [BtfFeature; 8] = [
    Func,
    FuncGlobal,
    DataSec,
    DataSecZero,
    Float,
    DeclTag,
    TypeTag,
    Enum64,
];

// What a source says of each feature, in the order of their numbers.
type Answers = [bool; 8];

const Y: bool = true;

const N: bool = false;

fn answers<F: FeatureSource>(source: &mut F) -> Answers {
    FEATURES.map(|feature| source.is_supported(feature))
}

// Asks twice, so that an answer that is kept is seen too.
fn check_source<F: FeatureSource>(rt: &impl Abort, source: &mut F, want: &Answers) {
    assert_eq!(rt; answers(source), *want);
    assert_eq!(rt; answers(source), *want);
}

// A source, a resolver over it, and a resolver over that resolver say the same.
fn check_all<F: FeatureSource + Copy>(rt: &impl Abort, source: F, want: &Answers) {
    let mut plain = source;
    check_source(rt, &mut plain, want);
    let mut resolver = BtfFeatureResolver::new(source);
    check_source(rt, &mut resolver, want);
    let mut outer = BtfFeatureResolver::new(BtfFeatureResolver::new(source));
    check_source(rt, &mut outer, want);
}

const SETS: [(u8, Answers); 7] = [
    (0x00, [N, N, N, N, N, N, N, N]),
    (0xff, [Y, Y, Y, Y, Y, Y, Y, Y]),
    (0x01, [Y, N, N, N, N, N, N, N]),
    (0x80, [N, N, N, N, N, N, N, Y]),
    (0x7f, [Y, Y, Y, Y, Y, Y, Y, N]),
    (0x16, [N, Y, Y, N, Y, N, N, N]),
    (0xa8, [N, N, N, Y, N, Y, N, Y]),
];

#[test]
fn a_set_has_what_its_bits_say(rt: HostRuntime) {
    for (bits, want) in &SETS {
        check_all(&rt, FeatureSet::from_bits(*bits), want);
    }
}

// Each feature is put into the set that the row before left.
const ADDED: [(BtfFeature, Answers); 9] = [
    (DataSec, [N, N, Y, N, N, N, N, N]),
    (DataSec, [N, N, Y, N, N, N, N, N]),
    (Enum64, [N, N, Y, N, N, N, N, Y]),
    (Func, [Y, N, Y, N, N, N, N, Y]),
    (TypeTag, [Y, N, Y, N, N, N, Y, Y]),
    (FuncGlobal, [Y, Y, Y, N, N, N, Y, Y]),
    (DataSecZero, [Y, Y, Y, Y, N, N, Y, Y]),
    (Float, [Y, Y, Y, Y, Y, N, Y, Y]),
    (DeclTag, [Y, Y, Y, Y, Y, Y, Y, Y]),
];

#[test]
fn a_set_takes_features(rt: HostRuntime) {
    let mut set = FeatureSet::none();
    check_source(&rt, &mut set, &[N, N, N, N, N, N, N, N]);
    for (feature, want) in &ADDED {
        set = set.with(*feature);
        check_source(&rt, &mut set, want);
    }
}

const LISTS: [(&[BtfFeature], Answers); 6] = [
    (&[], [Y, Y, Y, Y, Y, Y, Y, Y]),
    (&[Func], [N, Y, Y, Y, Y, Y, Y, Y]),
    (&[Enum64, Func], [N, Y, Y, Y, Y, Y, Y, N]),
    (&[Float, Float], [Y, Y, Y, Y, N, Y, Y, Y]),
    (
        &[DeclTag, DataSecZero, FuncGlobal],
        [Y, N, Y, N, Y, N, Y, Y],
    ),
    (&FEATURES, [N, N, N, N, N, N, N, N]),
];

#[test]
fn a_list_refuses_what_it_names(rt: HostRuntime) {
    for (refused, want) in &LISTS {
        check_all(&rt, RefusedFeatures::new(*refused), want);
    }
}

// A set that counts how often it is asked.
#[derive(Drop)]
struct Counting<'c> {
    set: FeatureSet,
    asked: &'c mut u32,
}

impl FeatureSource for Counting<'_> {
    ghost means = { λ s. has s.set };

    fn is_supported(&mut self, feature: BtfFeature) -> bool {
        *self.asked = self.asked.wrapping_add(1);
        self.set.is_supported(feature)
    }
}

// Asks about each feature twice.
fn ask_twice<F: FeatureSource + Drop>(source: F) {
    let mut source = source;
    let _ = answers(&mut source);
    let _ = answers(&mut source);
}

#[test]
fn a_resolver_asks_once(rt: HostRuntime) {
    let set = FeatureSet::from_bits(0x16);
    let mut asked = 0;
    ask_twice(Counting {
        set,
        asked: &mut asked,
    });
    assert_eq!(rt; asked, 16);
    asked = 0;
    ask_twice(BtfFeatureResolver::new(Counting {
        set,
        asked: &mut asked,
    }));
    assert_eq!(rt; asked, 8);
    asked = 0;
    ask_twice(BtfFeatureResolver::new(BtfFeatureResolver::new(Counting {
        set,
        asked: &mut asked,
    })));
    assert_eq!(rt; asked, 8);
}
