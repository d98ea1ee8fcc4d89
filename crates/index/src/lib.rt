// The participants' and the route rows' BICs and the orders' keys, payer's BIC and TxId, each as rows of words with chains through them:
// what a search is lent (`Index`). A search reads the words once, goes along one chain and compares words, which are the same where the
// bytes are (`same-bics`, `same_keys`). Its answer is `first_with`, as no two rows hold the same. Rows that share a bucket cost a
// comparison each: a sender may make 256 TxIds share one, and what is answered is the same.
#![tactic(auto)]

mod table;
pub mod words;

ghost use Rattle.std.specs.Prelude.{◌≡◌, ℕ, ◌<◌, ◌≤◌, [], length};
ghost use Rattle.dayfile.specs.Roster.{participant_in, row_of};
ghost use Rattle.rules.specs.Book.{order_of};
ghost use Rattle.index.specs.RowChains.{rows_of};
ghost use Rattle.index.specs.Words.{bic_words, key_words};

use dayfile::roster::{Participant, Route};
use rules::Order;
pub use table::Index;

// Each BIC's row behind the others, in an index that is lent, so that none is handed over.
pub fn put_bics(participants: &[Participant; 32], size: usize, bics: &mut Index<2, 32>)
    requires formed { (size ≤ 32) × ((p : ℕ) → p < size → length (participant_in participants.now p).bic ≡ 11) }
    requires empty { bics.old ≡ [] }
    ensures { bics.new ≡ rows_of (λ p. bic_words (participant_in participants.now p).bic) size }
{
    for p in 0..size {
        bics.push(&words::bic_words(&participants[p].bic));
    }
}

pub fn bics_of(participants: &[Participant; 32], size: usize) -> Index<2, 32>
    requires { (size ≤ 32) × ((p : ℕ) → p < size → length (participant_in participants.now p).bic ≡ 11) }
    ensures { result ≡ rows_of (λ p. bic_words (participant_in participants.now p).bic) size }
{
    let mut bics = Index::new();
    put_bics(participants, size, &mut bics);
    bics
}

pub fn put_route_bics(routes: &[Route; 64], count: usize, bics: &mut Index<2, 64>)
    requires formed { (count ≤ 64) × ((i : ℕ) → i < count → length (row_of routes.now i).bic ≡ 11) }
    requires empty { bics.old ≡ [] }
    ensures { bics.new ≡ rows_of (λ i. bic_words (row_of routes.now i).bic) count }
{
    for i in 0..count {
        bics.push(&words::bic_words(&routes[i].bic));
    }
}

pub fn route_bics_of(routes: &[Route; 64], count: usize) -> Index<2, 64>
    requires { (count ≤ 64) × ((i : ℕ) → i < count → length (row_of routes.now i).bic ≡ 11) }
    ensures { result ≡ rows_of (λ i. bic_words (row_of routes.now i).bic) count }
{
    let mut bics = Index::new();
    put_route_bics(routes, count, &mut bics);
    bics
}

pub fn put_keys(
    participants: &[Participant; 32],
    orders: &[Order; 256],
    count: usize,
    keys: &mut Index<7, 256>,
)
    requires formed { (count ≤ 256) × ((i : ℕ) → i < count → (order_of orders.now i).payer < 32)
        × ((i : ℕ) → i < count → length (participant_in participants.now (order_of orders.now i).payer).bic ≡ 11)
        × ((i : ℕ) → i < count → length (order_of orders.now i).txid ≡ 35) }
    requires empty { keys.old ≡ [] }
    ensures { keys.new ≡ rows_of (λ i. key_words (participant_in participants.now (order_of orders.now i).payer).bic (order_of orders.now i).txid) count }
{
    for i in 0..count {
        let order = &orders[i];
        let payer = &participants[order.payer];
        keys.push(&words::key_words(&payer.bic, &order.txid));
    }
}

pub fn keys_of(
    participants: &[Participant; 32],
    orders: &[Order; 256],
    count: usize,
) -> Index<7, 256>
    requires { (count ≤ 256) × ((i : ℕ) → i < count → (order_of orders.now i).payer < 32)
        × ((i : ℕ) → i < count → length (participant_in participants.now (order_of orders.now i).payer).bic ≡ 11)
        × ((i : ℕ) → i < count → length (order_of orders.now i).txid ≡ 35) }
    ensures { result ≡ rows_of (λ i. key_words (participant_in participants.now (order_of orders.now i).payer).bic (order_of orders.now i).txid) count }
{
    let mut keys = Index::new();
    put_keys(participants, orders, count, &mut keys);
    keys
}
