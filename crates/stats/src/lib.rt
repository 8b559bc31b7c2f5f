//! What went in and out of a unit, by endpoint and by leg, and how it is told: lines for people, and metrics in the text format of
//! Prometheus.
//!
//! Read `traffic` first, the counts that threads raise, in `cells`. It stands on `endpoint_count` and `leg_count`, what was counted of an endpoint and on a leg, and
//! `reports`, what report blocks say, and how long that is shown; `report_cells` is where threads leave it, `numbered_report` what is shown
//! of it. `refusals` says why what came was refused,
//! `refusal_cells` is where threads count it, `refusal_news` what is told of it as it happens. `lines`, `report_lines` and `refusal_texts` are texts
//! for people, `metrics` those for Prometheus. `figures`, `report_figures`, `leg_states` and `unit_figures` are which metrics there are,
//! `subjects` of whom, and `labels` how those are named there.
#![tactic(auto)]

mod cells;
mod endpoint_count;
mod figures;
mod labels;
mod leg_count;
mod leg_states;
mod lines;
mod metrics;
mod numbered_report;
mod refusal_cells;
mod refusal_news;
mod refusal_texts;
mod refusals;
mod report_cells;
mod report_figures;
mod report_lines;
mod reports;
mod subjects;
mod traffic;
mod unit_figures;

pub use endpoint_count::EndpointCount;
pub use figures::{EndpointFigure, LegFigure, Numbered, push_figures};
pub use labels::{endpoint_labels, leg_labels};
pub use leg_count::LegCount;
pub use leg_states::{LegState, StateFigure, push_leg_states};
pub use lines::{LegLine, LegNames, leg_line};
pub use metrics::{Metric, MetricType, Sample, push_metric};
pub use numbered_report::NumberedReport;
pub use refusal_news::push_refusal_news;
pub use refusal_texts::{push_refusal_figures, push_refusal_lines};
pub use refusals::RefusedCount;
pub use report_figures::{MetricValue, ReportFigure, push_report_figures};
pub use report_lines::{leg_report_line, publisher_report_line};
pub use reports::{ReceptionReport, SHOWN_MS, SentReport};
pub use subjects::{Subject, Subjects};
pub use traffic::Traffic;
pub use unit_figures::{UnitFigure, push_build_info, push_start_time, push_total};
