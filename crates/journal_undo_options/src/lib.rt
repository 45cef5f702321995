// The undoing of a change of options, from its record in the journal.
#![tactic(auto)]

ghost use Rattle.std.specs.Prelude.{◌≡◌, true, List, ℕ, ◌-◌, ◌≤◌, length, IfSome};
ghost use Rattle.nights.specs.Journal.{undo_as, checked};
ghost use Rattle.network_form.specs.Forms.{plain_in, formed_in};
ghost use Rattle.journal_tests.specs.Undone.{undone_in};

use journal_tests::Undone;
use network_form::Head;
use network_options::NetworkOptions;

// The network before the change of options whose record stands from `start` up to `end`, whatever its words are. The options alone are
// tested, and words that are no good probability are refused before one is made of them.
#[tactic(auto, using(journal_tests::proofs::Telling::misfit_told, journal_tests::proofs::Rows::row_length, journal_tests::proofs::Rows::row_at, journal_tests::proofs::Rows::row_first, crate::proofs::Choices::options_size, crate::proofs::Choices::bad_flag, crate::proofs::Choices::bad_loss, crate::proofs::Choices::bad_replay, crate::proofs::Choices::options_fit, crate::proofs::Choices::options_leave, crate::proofs::Choices::options_stay))]
pub fn undo(head: Head, journal: &[u64], start: usize, end: usize) -> Option<Undone>
    requires { (2 ≤ start) × (start ≤ end) × (end ≤ length journal.now) }
    ensures undone { (w : List ℕ) → formed_in head w ≡ true
        → (undone_in result w ≡ checked (undo_as 3 (end - start) start (plain_in head w) journal.now end)) }
    ensures formed { (w : List ℕ) → formed_in head w ≡ true → IfSome result (λ u. formed_in u.head w ≡ true) }
{
    let &[loss, replay, min, mean, flag, _, _] = &journal[start..end] else {
        return None;
    };
    if 1 < flag || !chance::good_word(loss) || !chance::good_word(replay) {
        return None;
    }
    let options = NetworkOptions {
        packet_loss_probability: chance::of_word(loss),
        packet_replay_probability: chance::of_word(replay),
        one_way_delay_min: min,
        one_way_delay_mean: mean,
        fault_client_messages: flag == 1,
    };
    let fits = options.good();
    let before = Head { options, ..head };
    fits.then_some(Undone {
        head: before,
        start,
    })
}
