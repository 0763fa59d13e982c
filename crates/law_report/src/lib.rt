//! A law of the written check: every image has a report.
#![tactic(auto)]

ghost use Rattle.law_report.specs.Laws.{HasReport};

/// Every image has a report, whatever its length and its bytes. By `report_law` of `law_check` no two
/// differ, so it has exactly one. The proof makes the report: it decides each rule of the check, and
/// lists the errors for which the rule asks.
pub fn has_report_law()
    ensures { HasReport }
{}
