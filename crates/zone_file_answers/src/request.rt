//! A request line.
ghost use Rattle.std.specs.Prelude.{◌≡◌, option_map};
ghost use Rattle.zone_answers.specs.Asked.{asked};
ghost use Rattle.zone_file_answers.specs.Requests.{request_of};

use zone_answers::{Request, cut_at_space};

/// Reads `at N`, N being an optional `-` and 1 to 30 digits, or `local TEXT`, TEXT being a local text, as a request of a zone without a
/// name.
#[tactic(auto, unfolding(crate::specs::Requests::request_of))]
pub(crate) fn read_request(text: &str) -> Option<Request<'_>>
    ensures { option_map asked result ≡ request_of text.now }
{
    let (word, value) = cut_at_space(text);
    Request::of_words(word, "", value)
}
