// A book: quotations of one kind in places that the caller lends, yearly cash flows, and the calls on them.
ghost use Rattle.std.specs.Prelude.{◌≡◌, ◌≤◌, length, map, take, Ok, IfSome, nat_le};
ghost use Rattle.std.specs.List.{position};
ghost use Rattle.std.proofs.Props.{props};
ghost use Rattle.curve.specs.Currencies.{span};
ghost use Rattle.curve.specs.Questions.{signed_pair};
ghost use Rattle.curve.specs.Reserve.{reserve_from};
ghost use Rattle.curve.specs.Settling.{settled as settled_tables};

use crate::call::{Call, Reply};
use crate::flow::Flow;
use crate::settled::Settled;
use crate::table::Table;
use curve::settle::settle;
use curve::terms::Terms;
use instruments::kind::Instrument;
use instruments::refusal::Refusal;

// at most so many places are used; the clauses write the number, as the definitions do
pub const MOST_PLACES: usize = 60;

// The quotations stand as rows in the first `len` places, in rising order of maturity: the caller lends the places, so that a book needs no
// memory of its own. A settled book keeps the curve of its quotations and the sum of its flows' shares on it, which is
// the reserve where no flow stands after the curve's last year.
#[derive(Drop)]
pub struct Book<'a, K: Instrument> {
    terms: Terms,
    rows: &'a mut [K::Row],
    len: usize,
    flows: Table,
    settled: Option<Settled>,
    ghost within: { len ≤ length rows.now },
    ghost sound: { IfSome settled (λ s. Ok s.curve.tables ≡ settled_tables (span terms) (map K.read (take len rows.now))) } by { Prim.hlevel props },
    ghost worth: { IfSome settled (λ s. s.worth ≡ signed_pair (reserve_from s.curve.tables 0 flows.amounts)) } by { Prim.hlevel props },
}

impl<'a, K: Instrument> Book<'a, K> {
    ghost use Rattle.std.specs.Prelude.{◌<◌, min, is_ok, IfOk, IfErr, Some};
    ghost use Rattle.instruments.specs.Law.{ok_map};
    ghost use Rattle.book.specs.Books.{rows_of, lender_of, quotations_of, register_of, rank, entered_rows, withdrawn_rows, no_figures, kept_of, call_means, rows_after, Kept};
    ghost use Rattle.book.specs.Register.{opened, is_held, told, reply};
    ghost use Rattle.book.specs.declared.call.Call.TheVariants.{Enter, Withdraw, Post, Strike, Settle, Forward, Factor, Rate, Reserve};

    // A book on the given terms that holds nothing; its places keep what they had.
    #[tactic(auto, unfolding(crate::specs::Register::opened))]
    pub fn open(terms: Terms, rows: &'a mut [K::Row]) -> Book<'a, K>
        ensures register { register_of K.read result ≡ opened (span terms) (min 60 (length rows.old)) }
        ensures places { rows_of result ≡ rows.old }
        ensures lender { lender_of result ≡ rows.entry.ghost_name }
    {
        Book {
            terms,
            rows,
            len: 0,
            flows: Table::empty(),
            settled: None,
        }
    }

    // Opens the book anew on other terms; its places keep what they have.
    #[tactic(auto, unfolding(crate::specs::Register::opened))]
    pub fn reopen(&mut self, terms: Terms)
        ensures register { register_of K.read self.new ≡ opened (span terms) (min 60 (length (rows_of self.old))) }
        ensures places { rows_of self.new ≡ rows_of self.old }
        ensures lender { lender_of self.new ≡ lender_of self.old }
    {
        self.terms = terms;
        self.len = 0;
        self.flows = Table::empty();
        self.settled = None;
    }

    // The rows held.
    fn held(&self) -> &[K::Row]
        ensures { result.now ≡ take self.now.len (rows_of self.now) }
    {
        &self.rows[..self.len]
    }

    // Where the quotation of a maturity stands among those held, or, as an error, where one would go.
    fn find(&self, maturity: u8) -> Result<usize, usize>
        ensures held { is_ok result ≡ is_held maturity (quotations_of K.read self.now) }
        ensures ok { IfOk result (λ at. (at ≡ rank maturity (quotations_of K.read self.now)) × (at < self.now.len)) }
        ensures err { IfErr result (λ at. (at ≡ rank maturity (quotations_of K.read self.now)) × (at ≤ self.now.len)) }
    {
        let held = self.held();
        match first_from::<K>(held, maturity) {
            Some(at) if maturity_of::<K>(&held[at]) == maturity => Ok(at),
            Some(at) => Err(at),
            None => Err(held.len()),
        }
    }

    // Enters a quotation in its place. It unsettles the book.
    #[tactic(auto, using(crate::proofs::Shifts::put_is, crate::proofs::Quoted::count_is))]
    pub fn enter(&mut self, quotation: K) -> Result<(), Refusal>
        ensures register { register_of K.read self.new ≡ told (register_of K.read self.old) (Enter (K.means quotation)) }
        ensures answer { ok_map no_figures result ≡ reply (register_of K.read self.old) (Enter (K.means quotation)) }
        ensures places { rows_of self.new ≡ entered_rows (quotations_of K.read self.old) (rows_of self.old) (K.means quotation) (K.Instrument.row quotation) (is_ok result) }
        ensures lender { lender_of self.new ≡ lender_of self.old }
    {
        let maturity = quotation.maturity();
        if self.terms.converged(maturity) {
            return Err(Refusal::AfterConvergence(maturity));
        }
        let Err(at) = self.find(maturity) else {
            return Err(Refusal::MaturityHeld(maturity));
        };
        if self.len >= MOST_PLACES.min(self.rows.len()) {
            return Err(Refusal::NoPlaceLeft(maturity));
        }
        let row = quotation.to_row();
        self.settled = None; // its figures lack the new quotation
        self.rows.copy_within(at..self.len, at + 1);
        self.rows[at] = row;
        self.len += 1;
        Ok(())
    }

    // Takes the quotation of a maturity out. It unsettles the book.
    #[tactic(auto, using(crate::proofs::Shifts::cut_is, crate::proofs::Quoted::count_is, crate::proofs::Quoted::withdrawn_quoted))]
    pub fn withdraw(&mut self, maturity: u8) -> Result<(), Refusal>
        ensures register { register_of K.read self.new ≡ told (register_of K.read self.old) (Withdraw maturity) }
        ensures answer { ok_map no_figures result ≡ reply (register_of K.read self.old) (Withdraw maturity) }
        ensures places { rows_of self.new ≡ withdrawn_rows (quotations_of K.read self.old) (rows_of self.old) maturity (is_ok result) }
        ensures lender { lender_of self.new ≡ lender_of self.old }
    {
        let Ok(at) = self.find(maturity) else {
            return Err(Refusal::NoneHeld(maturity));
        };
        self.settled = None; // its figures rest on the quotation withdrawn
        self.rows.copy_within(at + 1..self.len, at);
        self.len -= 1;
        Ok(())
    }

    // Posts the flow of a year.
    pub fn post(&mut self, year: u8, amount: i32) -> Result<(), Refusal>
        ensures register { register_of K.read self.new ≡ told (register_of K.read self.old) (Post year amount) }
        ensures answer { ok_map no_figures result ≡ reply (register_of K.read self.old) (Post year amount) }
        ensures places { rows_of self.new ≡ rows_of self.old }
        ensures lender { lender_of self.new ≡ lender_of self.old }
    {
        let flow = Flow::new(year, amount)?;
        self.flows.post(flow)?;
        if let Some(settled) = &mut self.settled {
            settled.add(flow.year, flow.amount);
        }
        Ok(())
    }

    // Strikes the flow of a year.
    pub fn strike(&mut self, year: u8) -> Result<(), Refusal>
        ensures register { register_of K.read self.new ≡ told (register_of K.read self.old) (Strike year) }
        ensures answer { ok_map no_figures result ≡ reply (register_of K.read self.old) (Strike year) }
        ensures places { rows_of self.new ≡ rows_of self.old }
        ensures lender { lender_of self.new ≡ lender_of self.old }
    {
        let amount = self.flows.strike(year)?;
        if let Some(settled) = &mut self.settled {
            settled.take(year, amount);
        }
        Ok(())
    }

    // Settles the book: from here on it answers questions by the curve of its quotations.
    pub fn settle(&mut self) -> Result<(), Refusal>
        ensures register { register_of K.read self.new ≡ told (register_of K.read self.old) Settle }
        ensures answer { ok_map no_figures result ≡ reply (register_of K.read self.old) Settle }
        ensures places { rows_of self.new ≡ rows_of self.old }
        ensures lender { lender_of self.new ≡ lender_of self.old }
    {
        let curve = settle::<K>(&self.terms, self.held())?;
        let worth = curve.total(&self.flows.amounts);
        self.settled = Some(Settled { curve, worth });
        Ok(())
    }

    // What a settled book keeps.
    fn settled(&self) -> Result<&Settled, Refusal>
        ensures { ok_map (λ x. x.now) result ≡ kept_of self.now.settled }
    {
        self.settled.as_ref().ok_or(Refusal::NotSettled)
    }

    // The forwards of a year, low and high, in units.
    pub fn forward(&self, year: u8) -> Result<(i64, i64), Refusal>
        ensures { ok_map Some result ≡ reply (register_of K.read self.now) (Forward year) }
    {
        self.settled()?.curve.forward(year)
    }

    // The discount factors of a year, low and high, in units.
    pub fn factor(&self, year: u8) -> Result<(i64, i64), Refusal>
        ensures { ok_map Some result ≡ reply (register_of K.read self.now) (Factor year) }
    {
        self.settled()?.curve.factor(year)
    }

    // The zero rates of a year, low and high, in units.
    pub fn rate(&self, year: u8) -> Result<(i64, i64), Refusal>
        ensures { ok_map Some result ≡ reply (register_of K.read self.now) (Rate year) }
    {
        self.settled()?.curve.rate(year)
    }

    // The reserve, low and high, in hundredths of a krona.
    pub fn reserve(&self) -> Result<(i64, i64), Refusal>
        ensures { ok_map Some result ≡ reply (register_of K.read self.now) Reserve }
    {
        let settled = self.settled()?;
        settled.curve.flows_within(&self.flows.amounts)?;
        Ok(settled.worth)
    }

    // Makes a call.
    pub fn call(&mut self, call: Call<K>) -> Reply
        ensures kept { Kept K.read self.old (call_means K.means call) result self.new }
        ensures places { rows_of self.new ≡ rows_after K.Instrument.row K.means (quotations_of K.read self.old) (rows_of self.old) call (is_ok result) }
        ensures lender { lender_of self.new ≡ lender_of self.old }
    {
        match call {
            Call::Enter(quotation) => self.enter(quotation).map(|()| None),
            Call::Withdraw(maturity) => self.withdraw(maturity).map(|()| None),
            Call::Post(year, amount) => self.post(year, amount).map(|()| None),
            Call::Strike(year) => self.strike(year).map(|()| None),
            Call::Settle => self.settle().map(|()| None),
            Call::Forward(year) => self.forward(year).map(Some),
            Call::Factor(year) => self.factor(year).map(Some),
            Call::Rate(year) => self.rate(year).map(Some),
            Call::Reserve => self.reserve().map(Some),
        }
    }
}

// The maturity of the quotation that a row stands for.
fn maturity_of<K: Instrument>(row: &K::Row) -> u8
    ensures { result ≡ (K.read row.now).maturity }
{
    K::of_row(*row).maturity()
}

// The first place at which the maturity is not smaller. Not by halves: what is asked is said of any rows, also of rows that do not rise.
fn first_from<K: Instrument>(rows: &[K::Row], maturity: u8) -> Option<usize>
    ensures { result ≡ position (λ row. nat_le maturity (K.read row).maturity) rows.now }
{
    rows.iter()
        .position(|row| maturity_of::<K>(row) >= maturity)
}
