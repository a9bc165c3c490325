// Features of BTF that a kernel may lack, sources that say which it has, and a resolver that asks about each once.
#![tactic(auto)]

ghost use Rattle.std.specs.Prelude.{◌≡◌, ℕ, Bool, false, not, ◌||◌, ◌==◌, bit_and, bit_or};
ghost use Rattle.features.specs.declared.BtfFeature.{BtfFeature};
ghost use Rattle.features.specs.Features.{number_of, same, bit_of, with_bit, has, allows};
ghost use Rattle.features.specs.Kept.{kept, empty, keeping, resolves, Resolved};

#[derive(Clone, Copy, Debug, PartialEq, Eq)]
pub enum BtfFeature {
    Func,
    FuncGlobal,
    DataSec,
    DataSecZero,
    Float,
    DeclTag,
    TypeTag,
    Enum64,
}

impl From<BtfFeature> for u8 {
    ghost from_gives = { λ feature n. n ≡ number_of feature };

    fn from(feature: BtfFeature) -> u8 {
        feature as u8
    }
}

impl BtfFeature {
    // The bit of this feature alone: `&` with it reads that bit of a number, and `|` with it sets the bit.
    fn mask(self) -> u8
        ensures reads { (n : ℕ) → (bit_and n result == 0) ≡ not (bit_of n self) }
        ensures sets { (n : ℕ) (f : BtfFeature) → bit_of (bit_or n result) f ≡ (same self f || bit_of n f) }
        ensures adds { (n : ℕ) → bit_or n result ≡ with_bit n self }
    {
        1 << u8::from(self)
    }

    fn is(self, feature: BtfFeature) -> bool
        ensures { result ≡ same self feature }
    {
        self == feature
    }
}

// A source means a yes or no for each feature. Asking gives that answer, and leaves all eight as they are.
pub trait FeatureSource {
    ghost means: { Self → BtfFeature → Bool };

    // What becomes of a source that is asked about a feature once. A source need not say.
    ghost asked: { Self → BtfFeature → Self → Type 0 } = { λ _ _ _. Unit {0} };

    fn is_supported(&mut self, feature: BtfFeature) -> bool
        ensures answer { result ≡ means self.old feature }
        ensures stays { (f : BtfFeature) → means self.new f ≡ means self.old f }
        ensures once { asked self.old feature self.new };
}

// A set of features: bit n is set where the feature of number n is in the set. No `bitflags`: a feature is asked for by its
// value, of which flags would need a second enum.
#[derive(Clone, Copy, Debug, PartialEq, Eq)]
pub struct FeatureSet {
    bits: u8,
}

impl FeatureSet {
    pub fn none() -> FeatureSet
        ensures each { (f : BtfFeature) → has result f ≡ false }
        ensures whole { result.bits ≡ 0 }
    {
        FeatureSet { bits: 0 }
    }

    // A name that says what the number is, which `From<u8>` would not.
    pub fn from_bits(bits: u8) -> FeatureSet
        ensures each { (f : BtfFeature) → has result f ≡ bit_of bits f }
        ensures whole { result.bits ≡ bits }
    {
        FeatureSet { bits }
    }

    pub fn with(self, feature: BtfFeature) -> FeatureSet
        ensures each { (f : BtfFeature) → has result f ≡ (same feature f || has self f) }
        ensures whole { result.bits ≡ with_bit self.bits feature }
    {
        FeatureSet {
            bits: self.bits | feature.mask(),
        }
    }
}

impl FeatureSource for FeatureSet {
    ghost means = { has };

    ghost asked = { λ s _ t. t ≡ s };

    fn is_supported(&mut self, feature: BtfFeature) -> bool {
        self.bits & feature.mask() != 0
    }
}

// Has every feature but those that a caller's list names.
#[derive(Clone, Copy, Debug)]
pub struct RefusedFeatures<'a> {
    refused: &'a [BtfFeature],
}

impl<'a> RefusedFeatures<'a> {
    pub fn new(refused: &'a [BtfFeature]) -> RefusedFeatures<'a>
        ensures { result.refused.now ≡ refused.now }
    {
        RefusedFeatures { refused }
    }
}

impl<'a> FeatureSource for RefusedFeatures<'a> {
    ghost means = { allows };

    ghost asked = { λ s _ t. t ≡ s };

    fn is_supported(&mut self, feature: BtfFeature) -> bool {
        // By a loop: `contains` reads in groups, and `any` keeps an iterator; for the few features of a list both take longer.
        for refused in self.refused {
            if refused.is(feature) {
                return false;
            }
        }
        true
    }
}

// The kept answers, one for each feature that was asked for; by a rule of the library a plain struct of eight.
#[derive(Clone, Copy, Debug, Default)]
struct Answers {
    func: Option<bool>,
    func_global: Option<bool>,
    data_sec: Option<bool>,
    data_sec_zero: Option<bool>,
    float: Option<bool>,
    decl_tag: Option<bool>,
    type_tag: Option<bool>,
    enum64: Option<bool>,
}

impl Answers {
    fn get(&self, feature: BtfFeature) -> Option<bool>
        ensures { result ≡ kept self.now feature }
    {
        match feature {
            BtfFeature::Func => self.func,
            BtfFeature::FuncGlobal => self.func_global,
            BtfFeature::DataSec => self.data_sec,
            BtfFeature::DataSecZero => self.data_sec_zero,
            BtfFeature::Float => self.float,
            BtfFeature::DeclTag => self.decl_tag,
            BtfFeature::TypeTag => self.type_tag,
            BtfFeature::Enum64 => self.enum64,
        }
    }

    fn keep(&mut self, feature: BtfFeature, answer: bool)
        ensures { self.new ≡ keeping self.old feature answer }
    {
        match feature {
            BtfFeature::Func => self.func = Some(answer),
            BtfFeature::FuncGlobal => self.func_global = Some(answer),
            BtfFeature::DataSec => self.data_sec = Some(answer),
            BtfFeature::DataSecZero => self.data_sec_zero = Some(answer),
            BtfFeature::Float => self.float = Some(answer),
            BtfFeature::DeclTag => self.decl_tag = Some(answer),
            BtfFeature::TypeTag => self.type_tag = Some(answer),
            BtfFeature::Enum64 => self.enum64 = Some(answer),
        }
    }
}

// Asks its source about a feature at most once, and keeps the answer. It means what it keeps, and else what its source means.
#[derive(Debug, Drop)]
pub struct BtfFeatureResolver<F> {
    source: F,
    answers: Answers,
}

impl<F: FeatureSource> BtfFeatureResolver<F> {
    pub fn new(source: F) -> BtfFeatureResolver<F>
        ensures each { (f : BtfFeature) → resolves F.FeatureSource.means result f ≡ F.FeatureSource.means source f }
        ensures whole { (result.source ≡ source) × (result.answers ≡ empty) }
    {
        BtfFeatureResolver {
            source,
            answers: Answers::default(),
        }
    }
}

impl<F: FeatureSource> FeatureSource for BtfFeatureResolver<F> {
    ghost means = { resolves F.FeatureSource.means };

    ghost asked = { Resolved F.FeatureSource.means F.FeatureSource.asked };

    fn is_supported(&mut self, feature: BtfFeature) -> bool {
        match self.answers.get(feature) {
            Some(answer) => answer,
            None => {
                let answer = self.source.is_supported(feature);
                self.answers.keep(feature, answer);
                answer
            }
        }
    }
}
