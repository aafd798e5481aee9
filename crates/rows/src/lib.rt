// The records as C has them: the structs of include/warpboulder.h, whose fields all have eight bytes. They stand in a crate of their own,
// below `c_api`, so that an edit of a field is checked without the codecs.
#![tactic(auto)]

ghost use Rattle.std.specs.Prelude.{◌≡◌};
ghost use Rattle.rows.specs.Rows.{stats_row, estimates_row, plan_row};

use format::{EncodingPlan, IntegerStats, SizeEstimates};

// `wb_stats`.
#[repr(C)]
#[derive(Clone, Copy, Debug, PartialEq, Eq)]
pub struct StatsRow {
    pub count: u64,
    pub first: i64,
    pub min: i64,
    pub max: i64,
    pub run_count: u64,
    // The place among the variants.
    pub sortedness: u64,
    pub cardinality: u64,
    // 1 or 0.
    pub cardinality_is_exact: u64,
    pub value_span: u64,
    pub max_zigzag: u64,
    pub varint_body_bytes: u64,
    pub run_length_body_bytes: u64,
    pub delta_min: i64,
    pub delta_max: i64,
    pub delta_span: u64,
}

// `wb_estimates`: 0 and 0 where a candidate is not available. Two arrays, for the C interface: the header's struct has them.
#[repr(C)]
#[derive(Clone, Copy, Debug, PartialEq, Eq)]
pub struct EstimatesRow {
    pub lengths: [u64; 7],
    pub available: [u64; 7],
}

// `wb_plan`.
#[repr(C)]
#[derive(Clone, Copy, Debug, PartialEq)]
pub struct PlanRow {
    // The id.
    pub encoding: u64,
    pub estimated_bytes: u64,
    pub plain_bytes: u64,
    // The place among the variants.
    pub reason: u64,
    pub run_density: f64,
    pub estimated_ratio: f64,
    pub estimates: EstimatesRow,
}

impl From<IntegerStats> for StatsRow {
    ghost from_gives = { λ stats row. row ≡ stats_row stats };

    fn from(stats: IntegerStats) -> StatsRow {
        StatsRow {
            count: stats.count as u64,
            first: stats.first,
            min: stats.min,
            max: stats.max,
            run_count: stats.run_count as u64,
            sortedness: stats.sortedness as u64,
            cardinality: stats.cardinality.count() as u64,
            cardinality_is_exact: u64::from(stats.cardinality.is_exact()),
            value_span: stats.value_span,
            max_zigzag: stats.max_zigzag,
            varint_body_bytes: stats.varint_body_bytes as u64,
            run_length_body_bytes: stats.run_length_body_bytes as u64,
            delta_min: stats.delta_min,
            delta_max: stats.delta_max,
            delta_span: stats.delta_span,
        }
    }
}

impl From<SizeEstimates> for EstimatesRow {
    ghost from_gives = { λ estimates row. row ≡ estimates_row estimates };

    fn from(estimates: SizeEstimates) -> EstimatesRow {
        EstimatesRow {
            lengths: estimates.lengths.map(|length| length.unwrap_or(0) as u64),
            available: estimates.lengths.map(|length| u64::from(length.is_some())),
        }
    }
}

impl From<EncodingPlan> for PlanRow {
    ghost from_gives = { λ plan row. row ≡ plan_row plan };

    fn from(plan: EncodingPlan) -> PlanRow {
        PlanRow {
            encoding: u64::from(plan.encoding.id()),
            estimated_bytes: plan.estimated_bytes as u64,
            plain_bytes: plan.plain_bytes as u64,
            reason: plan.reason as u64,
            run_density: plan.run_density,
            estimated_ratio: plan.estimated_ratio,
            estimates: plan.estimates.into(),
        }
    }
}
