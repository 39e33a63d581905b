// The settings: the source's CardinalityEstimationConfig. A figure reads the one that it goes by.
#[derive(Clone, Copy)]
pub struct CardinalityEstimationConfig {
    pub like_selectivity: f64,
    pub default_predicate_selectivity: f64,
    pub range_fallback_selectivity: f64,
    pub unknown_scan_rows: f64,
    pub unknown_column_ndv_cap: f64,
}
