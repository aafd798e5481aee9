// The types of the format's answers (document 01, "Questions at the counter" and "Statistics, estimates, plan"), the numbers
// of its refusals, and its limits. What the calls answer is defined in specs/, over these types.

#![tactic(auto)]

ghost use Rattle.std.specs.Prelude.{◌≡◌};
ghost use Rattle.format.specs.Estimates.{is_exact, refused_estimates};
ghost use Rattle.format.specs.Plan.{refused_plan};
ghost use Rattle.format.specs.Statistics.{cardinality_count, refused_stats};
ghost use Rattle.format.specs.declared.Cardinality.TheVariants.{Exact};

pub mod column;
pub mod encoding;
pub mod limits;
pub mod refusals;

pub use column::Column;
pub use encoding::Encoding;
pub use refusals::{Kind, Refusal, UnknownNumber};

#[derive(Clone, Copy, Debug, Default, PartialEq, Eq)]
pub enum Sortedness {
    #[default]
    Constant,
    Ascending,
    Descending,
    Unsorted,
}

// The number of distinct values, or a number that there are at least.
#[derive(Clone, Copy, Debug, PartialEq, Eq)]
pub enum Cardinality {
    Exact(usize),
    AtLeast(usize),
}

impl Cardinality {
    // The number of distinct values, or the number that there are at least.
    pub fn count(self) -> usize
        ensures { result ≡ cardinality_count self }
    {
        match self {
            Cardinality::Exact(n) | Cardinality::AtLeast(n) => n,
        }
    }

    pub fn is_exact(self) -> bool
        ensures { result ≡ is_exact self }
    {
        matches!(self, Cardinality::Exact(_))
    }
}

impl Default for Cardinality {
    ghost is_default = { λ c. c ≡ Exact 0 };

    fn default() -> Cardinality {
        Cardinality::Exact(0)
    }
}

#[derive(Clone, Copy, Debug, Default, PartialEq, Eq)]
pub enum PlanReason {
    #[default]
    Empty,
    CompressionDisabled,
    SmallestEstimate,
    GainBelowThreshold,
}

// A varint that was read: its value, the place after it, and whether it is unpadded, which strict reading asks.
#[derive(Clone, Copy, Debug, PartialEq, Eq)]
pub struct Read<T> {
    pub value: T,
    pub next: usize,
    pub unpadded: bool,
}

pub type Uvarint = Read<u64>;

pub type Varint = Read<i64>;

// A header that was read: the id, the count, the start of the body, and the start of the first padded varint, which strict
// reading asks for, if there is one.
#[derive(Clone, Copy, Debug, PartialEq, Eq)]
pub struct Header {
    pub id: u8,
    pub count: usize,
    pub start: usize,
    pub padded: Option<usize>,
}

// A part of a chunk that was read: where it ends, and the first padded varint up to there.
#[derive(Clone, Copy, Debug, PartialEq, Eq)]
pub struct Extent {
    pub end: usize,
    pub padded: Option<usize>,
}

// The fields of the Rust's `IntegerStats` but the distinct values, which are handed back as a part of the scratch.
#[derive(Clone, Copy, Debug, PartialEq, Eq)]
pub struct IntegerStats {
    pub count: usize,
    pub first: i64,
    pub min: i64,
    pub max: i64,
    pub run_count: usize,
    pub sortedness: Sortedness,
    pub cardinality: Cardinality,
    pub value_span: u64,
    pub max_zigzag: u64,
    pub varint_body_bytes: usize,
    pub run_length_body_bytes: usize,
    pub delta_min: i64,
    pub delta_max: i64,
    pub delta_span: u64,
}

// The record of the empty column, which is a refused call's too. By hand, so that its law says so.
#[tactic(auto, unfolding(crate::specs::Statistics::refused_stats))]
impl Default for IntegerStats {
    ghost is_default = { λ stats. stats ≡ refused_stats };

    fn default() -> IntegerStats {
        IntegerStats {
            count: 0,
            first: 0,
            min: 0,
            max: 0,
            run_count: 0,
            sortedness: Sortedness::Constant,
            cardinality: Cardinality::Exact(0),
            value_span: 0,
            max_zigzag: 0,
            varint_body_bytes: 0,
            run_length_body_bytes: 0,
            delta_min: 0,
            delta_max: 0,
            delta_span: 0,
        }
    }
}

// The seven candidate lengths in the order of the ids, none where a candidate is not available.
#[derive(Clone, Copy, Debug, PartialEq, Eq)]
pub struct SizeEstimates {
    pub lengths: [Option<usize>; 7],
}

// Those of a refused call. By hand: tried, a derived one, of which the law tells nothing of the array.
#[tactic(auto, unfolding(crate::specs::Estimates::refused_estimates))]
impl Default for SizeEstimates {
    ghost is_default = { λ estimates. estimates ≡ refused_estimates };

    fn default() -> SizeEstimates {
        SizeEstimates { lengths: [None; 7] }
    }
}

// The Rust's `EncodingPlan`, with the run density, the ratio and the candidates beside it.
#[derive(Clone, Copy, Debug)]
pub struct EncodingPlan {
    pub encoding: Encoding,
    pub estimated_bytes: usize,
    pub plain_bytes: usize,
    pub reason: PlanReason,
    pub run_density: f64,
    pub estimated_ratio: f64,
    pub estimates: SizeEstimates,
}

// The plan of a refused call. By hand, so that its law says so.
impl Default for EncodingPlan {
    ghost is_default = { λ plan. plan ≡ refused_plan };

    fn default() -> EncodingPlan {
        EncodingPlan {
            encoding: Encoding::Plain,
            estimated_bytes: 0,
            plain_bytes: 0,
            reason: PlanReason::Empty,
            run_density: 0.0,
            estimated_ratio: 0.0,
            estimates: SizeEstimates::default(),
        }
    }
}
