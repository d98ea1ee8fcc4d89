// A book that tickets are handed in to one after the other, with what is kept beside it, so that no ticket looks at all orders or adds up
// all cover. Each ticket has a turn: it is seen, orders expire, it is judged, and what was judged is carried out. What is found is found
// before the expiries, which change no key and no roster (`sought-after` of `turns`). A ticket that is refused from 12 on ends its turn
// where it is judged, which takes 3 ns less than carrying out nothing. A verdict is carried out in parts that do nothing where it says
// nothing; only the order is a match, as opening, changing and cutting write different things.
//
// A key gets its row where an order is new, and only there: other verdicts leave every order's key (`KeepsKey`). All cover
// together is changed by what each move changes, so refusal 22 adds up nothing; it is kept over all 32 places, so that a
// move of nobody needs no case of its own, and in a sound book that is the sum over the participants (`all-total`). Held and open debit
// anywhere are looked for at a cut only, since that looks at every participant.
ghost use Rattle.std.specs.Prelude.{◌≡◌, ℕ, ◌+◌, ◌*◌, ◌<◌, ◌≤◌, length};
ghost use Rattle.ticket.specs.TicketLayout.{ticket_length, txid_field};
ghost use Rattle.report.specs.ReportLayout.{report_length};
ghost use Rattle.rules.specs.Book.{cover_of};
ghost use Rattle.rules.specs.Cover.{whole, most_total};
ghost use Rattle.rules.specs.Cut.{cut_to, cut_reports_to};
ghost use Rattle.course.specs.Running.{room_left};
ghost use Rattle.turns.specs.Turn.{Written};
ghost use Rattle.turns.specs.Kept.{Kept};
ghost use Rattle.engine.specs.Turns.{words_in};

use super::directory::Directory;
use dayfile::roster::Roster;
use dayfile::route::Way;
use index::{Index, words};
use moves::{cover, cut, sums, told};
use orders::{status, tick};
use report::answer;
use report::answer::Answer;
use rules::verdict::{About, Does, Facts, Mover, Verdict};
use rules::{Book, Cover, Order, Status, constants};
use sight::Seen;
use ticket::kinds::Kind;
use ticket::layout;

#[derive(Drop)]
pub struct KeptBook {
    pub book: Book,
    // the index of the orders' keys, payer and TxId
    pub keys: Index<7, 256>,
    // all cover together
    pub total: u64,
    // no order before it waits for a bank
    pub next: usize,
    ghost kept: { Kept words_in book keys total next },
}

// How many reports there are then, and how many route rows were followed.
#[derive(Clone, Copy)]
struct Carried {
    reports: usize,
    rows: usize,
}

// Whether one ticket more is taken, by the bytes that are left of tickets, answers and reports.
fn room_left(tickets: usize, answers: usize, reports: usize) -> bool
    ensures { result ≡ room_left tickets answers reports }
{
    (layout::LENGTH <= tickets) & (answer::LENGTH <= answers) & (constants::LEAST_BUFFER <= reports)
}

fn txid_of(t: &[u8]) -> [u8; 35]
    requires { length t.now ≡ ticket_length }
    ensures { result ≡ txid_field t.now }
{
    let mut txid = [0u8; 35];
    txid.copy_from_slice(&t[layout::TXID..layout::IBAN]);
    txid
}

// All covers are cut, and whom that changes is told. The copies that it makes are in a function of its own, so that other tickets don't
// clear the place for them. The answer is how many reports there are then.
fn cut_all(covers: &mut [Cover; 32], roster: &Roster, reports: &mut [u8], n: usize) -> usize
    requires size { roster.now.size ≤ 32 }
    requires whole { (p : ℕ) → p < roster.now.size → whole (cover_of covers.old p) ≤ most_total }
    requires room { report_length * n + report_length * roster.now.size ≤ length reports.old }
    ensures covers { covers.new ≡ cut_to roster.now covers.old roster.now.size }
    ensures told { Written (cut_reports_to roster.now covers.old roster.now.size) n reports.old result reports.new }
{
    let before = *covers;
    let told = cut::put_cut(reports, n, *roster, before);
    let after = cut::cut_covers(*roster, before);
    *covers = after;
    told
}

impl KeptBook {
    ghost use Rattle.std.specs.Prelude.{false, if◌then◌else◌, slice_set};
    ghost use Rattle.fields.specs.Search.{number_of};
    ghost use Rattle.dayfile.specs.FileLimits.{most_participants};
    ghost use Rattle.dayfile.specs.Roster.{participant_of};
    ghost use Rattle.rules.specs.Book.{most_orders, with_covers};
    ghost use Rattle.rules.specs.Cover.{moved};
    ghost use Rattle.rules.specs.Find.{sender_in, order_in, route_in, any_open};
    ghost use Rattle.rules.specs.Refusal.{least_buffer};
    ghost use Rattle.rules.specs.Sound.{Sound};
    ghost use Rattle.rules.specs.Terms.{terms_of};
    ghost use Rattle.rules.specs.Tick.{at_time};
    ghost use Rattle.rules.specs.declared.Book.{Book};
    ghost use Rattle.course.specs.Running.{Ran};
    ghost use Rattle.course.specs.Seeking.{seeks_open, sought};
    ghost use Rattle.verdict.specs.Judgement.{verdict_of};
    ghost use Rattle.verdict.specs.Meaning.{facts_of, decision_by};
    ghost use Rattle.sight.specs.Sight.{sight_of};
    ghost use Rattle.turns.specs.Facts.{Sought, facts_by};
    ghost use Rattle.turns.specs.Kept.{Movable, moved_by};
    ghost use Rattle.turns.specs.Turn.{swept_at, Expired, CarriedOut, Turned};
    ghost use Rattle.engine.specs.Directory.{Directs};
    ghost use Rattle.engine.specs.Turns.{entry_by};

    fn see(&self, d: &Directory, t: &[u8]) -> Result<Seen, u8>
        requires sound { Sound self.now.book }
        requires lent { Directs self.now.book.roster d.now }
        requires whole { length t.now ≡ ticket_length }
        ensures { let b = self.now.book in
            result ≡ sight_of b.clock t.now (sender_in b.roster t.now) (order_in b.roster b.orders b.count t.now)
            (route_in b.roster t.now) }
    {
        sight::see(self.book.clock, t, &d.bics, &self.keys, &d.routes)
    }

    // Orders expire in arrival order, up to the first that is younger than 20 seconds. The answer is how many reports there are then.
    fn expire(&mut self, time: u32, reports: &mut [u8], n: usize) -> usize
        requires sound { Sound (at_time self.old.book time) }
        requires room { report_length * n + 6144 ≤ length reports.old }
        ensures book { self.new.book ≡ (swept_at self.old.book time).book }
        ensures told { Written (swept_at self.old.book time).reports n reports.old result reports.new }
    {
        self.book.clock = time;
        let mut n = n;
        while self.next < self.book.count {
            let i = self.next;
            let o = self.book.orders[i];
            if tick::is_young(self.book.clock, o.time) {
                break;
            }
            let bank = dayfile::is_bank(self.book.roster.participants[o.payee]);
            let lapse = tick::expire(self.book.clock, i, o, bank);
            let freed = lapse.freed;
            let who = freed.who;
            self.book.orders[i] = lapse.order;
            self.book.covers[who] = cover::moved(freed.how, freed.amount, self.book.covers[who]);
            n = told::put_told(reports, n, lapse.told);
            self.next = i + 1;
        }
        n
    }

    // Held or open debit anywhere: only a cut looks for that.
    fn unconfirmed(&self, kind: Kind) -> bool
        requires { self.now.book.roster.size ≤ most_participants }
        ensures { result ≡ (if seeks_open (terms_of kind).flow then any_open self.now.book else false) }
    {
        match kind {
            Kind::Cut => sums::any_open(&self.book.covers[..self.book.roster.size]),
            _ => false,
        }
    }

    // Of what was seen, and where the route row leads.
    fn judge(&self, s: Seen, way: Option<Way>) -> Verdict
        requires sound { Sound self.now.book }
        requires sender { number_of s.sender < most_participants }
        requires order { number_of s.order < most_orders }
        ensures { result ≡ verdict_of (facts_by self.now.book (entry_by s) s.sender s.order s.route way) }
    {
        let p = s.sender.unwrap_or(0);
        let i = s.order.unwrap_or(0);
        let o = self.book.orders[i];
        judge::judge(Facts {
            kind: s.kind,
            amount: s.amount,
            clock: self.book.clock,
            sender: s.sender,
            cover: self.book.covers[p],
            order: s.order,
            about: About {
                payer: o.payer,
                payee: o.payee,
                amount: o.amount,
                status: o.status,
            },
            bank: dayfile::is_bank(self.book.roster.participants[o.payee]),
            route: s.route,
            way,
            count: self.book.count,
            unconfirmed: self.unconfirmed(s.kind),
            total: self.total,
        })
    }

    // The cover of who moves becomes what it is after the move.
    fn put_cover(&mut self, m: Mover, amount: u64, new: Cover)
        requires fits { Movable m amount self.old.book.covers }
        requires moved { new ≡ moved m.how amount (cover_of self.old.book.covers m.who) }
        ensures { self.new.book ≡ with_covers self.old.book (moved_by m amount self.old.book.covers) }
    {
        let old = self.book.covers[m.who];
        self.total = sums::total_moved(m.how, amount, old, self.total);
        self.book.covers[m.who] = new;
    }

    // A new order behind the others; its key gets a row.
    fn open(&mut self, o: Order)
        requires room { self.old.book.count < most_orders }
        requires long { length self.old.book.orders ≡ most_orders }
        requires payer { o.payer < most_participants }
        requires bic { length (participant_of self.old.book.roster o.payer).bic ≡ 11 }
        requires txid { length o.txid ≡ 35 }
        ensures { self.new.book ≡ record self.old.book {
          orders = slice_set self.old.book.orders self.old.book.count o;
          count = self.old.book.count + 1;
        } }
    {
        let k = self.book.count;
        let payer = self.book.roster.participants[o.payer];
        let words = words::key_words(&payer.bic, &o.txid);
        self.keys.push(&words);
        self.book.orders[k] = o;
        self.book.count = k + 1;
    }

    // Covers move, participants are told, and the order changes, is new, or all covers are cut.
    fn carry_out(
        &mut self,
        v: Verdict,
        s: Seen,
        way: Option<Way>,
        t: &[u8],
        reports: &mut [u8],
        n: usize,
    ) -> Carried
        requires whole { length t.now ≡ ticket_length }
        requires after { (b : Book) × Expired b t.now (entry_by s) self.old.book }
        requires sought { Sought self.old.book t.now (entry_by s) s.sender s.order s.route way }
        requires verdict { v ≡ verdict_of (facts_of (sought self.old.book (entry_by s) t.now)) }
        requires room { report_length * n + 384 ≤ length reports.old }
        ensures { CarriedOut self.old.book (decision_by (sought self.old.book (entry_by s) t.now) v) n reports.old self.new.book
            result.reports reports.new result.rows }
    {
        let first = v.first;
        let new = cover::moved(first.how, v.amount, self.book.covers[first.who]);
        self.put_cover(first, v.amount, new);
        let second = v.second;
        let new = cover::gained(second.how, v.amount, self.book.covers[second.who]);
        self.put_cover(second, v.amount, new);
        let n = told::put_notices(reports, n, v.told, v.also, v.number, v.amount);
        // a copy: out of the verdict it would be read in other parts than it was written, and wait for these writes
        let does = v.does;
        match does {
            Does::Nothing => Carried {
                reports: n,
                rows: 0,
            },
            Does::Opens => {
                self.open(Order {
                    txid: txid_of(t),
                    payer: s.sender.unwrap_or(0),
                    payee: dayfile::reached(way),
                    amount: s.amount,
                    time: self.book.clock,
                    status: Status::Waiting,
                });
                Carried {
                    reports: n,
                    rows: dayfile::rows_followed(way),
                }
            }
            Does::Becomes(status) => {
                let i = s.order.unwrap_or(0);
                let changed = status::with_status(self.book.orders[i], status);
                self.book.orders[i] = changed;
                Carried {
                    reports: n,
                    rows: 0,
                }
            }
            Does::Cuts => {
                let n = cut_all(&mut self.book.covers, &self.book.roster, reports, n);
                Carried {
                    reports: n,
                    rows: 0,
                }
            }
        }
    }

    // The turn of a ticket, n reports standing in the buffer before it.
    fn turn(&mut self, d: &Directory, t: &[u8], reports: &mut [u8], n: usize) -> Answer
        requires sound { Sound self.old.book }
        requires lent { Directs self.old.book.roster d.now }
        requires whole { length t.now ≡ ticket_length }
        requires room { report_length * n + least_buffer ≤ length reports.old }
        ensures { Turned self.old.book t.now n reports.old self.new.book result reports.new }
    {
        let s = match self.see(d, t) {
            Ok(s) => s,
            Err(refusal) => {
                return Answer {
                    refusal,
                    reports: 0,
                    rows: 0,
                };
            }
        };
        let expired = self.expire(s.time, reports, n);
        let way = routes::end_of(&self.book.roster, s.route);
        let v = self.judge(s, way);
        if v.refusal != 0 {
            return Answer {
                refusal: v.refusal,
                reports: (expired - n) as u16,
                rows: 0,
            };
        }
        let carried = self.carry_out(v, s, way, t, reports, expired);
        Answer {
            refusal: v.refusal,
            reports: (carried.reports - n) as u16,
            rows: carried.rows as u8,
        }
    }

    // Tickets have their turns as long as there is room for one more. The answer is how many were taken.
    pub fn take(
        &mut self,
        d: &Directory,
        tickets: &[u8],
        answers: &mut [u8],
        reports: &mut [u8],
    ) -> usize
        requires sound { Sound self.old.book }
        requires lent { Directs self.old.book.roster d.now }
        ensures { Ran self.old.book tickets.now answers.old reports.old self.new.book result answers.new reports.new }
    {
        let mut taken = 0;
        let mut n = 0;
        while room_left(
            tickets.len() - layout::LENGTH * taken,
            answers.len() - answer::LENGTH * taken,
            reports.len() - report::LENGTH * n,
        ) {
            let at = layout::LENGTH * taken;
            let answer = self.turn(d, &tickets[at..at + layout::LENGTH], reports, n);
            answer::put_answer(answers, taken, answer);
            n += answer.reports as usize;
            taken += 1;
        }
        taken
    }
}
