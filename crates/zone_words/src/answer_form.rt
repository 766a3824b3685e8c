//! How an answer is written.

/// How instants in a zone are written as answers.
#[derive(Clone, Copy, Debug, PartialEq, Eq)]
pub enum AnswerForm {
    /// For people: `2024-10-27 02:30:00 +02:00 CEST`.
    People,
    /// By RFC 3339: `2024-10-27T02:30:00+02:00`.
    Rfc3339,
    /// As seconds from 1970-01-01 00:00:00 UTC: `@1729989000`.
    Epoch,
    /// As an object of JSON, a line each.
    Json,
}
