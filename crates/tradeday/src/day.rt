// The calls of the day.
use tally::calls::Call;
use tally::deals::Deal;
use tally::keys::Party;
use tally::listings::{Blocks, Listing};

// A swaption with the usual terms; trading ceases at 100.
fn list(number: u16, kind: u16) -> Call<()> {
    Call::List(Listing {
        number,
        index: 3,
        kind,
        strike: 97_000,
        blocks: Blocks {
            exercise: 0,
            assignment: 10,
        },
        minimum: 0,
        cease: 100,
        start: 200,
        cutoff: 300,
    })
}

fn house(participant: u16) -> Party {
    Party {
        participant,
        client: 0,
        desk: 1,
    }
}

fn trade(swaption: u16, buyer: u16, seller: u16, amount: i64, moment: u32) -> Call<()> {
    Call::Trade(Deal {
        swaption,
        buyer: house(buyer),
        seller: house(seller),
        amount,
        moment,
    })
}

pub(crate) fn calls() -> [Call<()>; 29] {
    [
        list(7, 1),
        list(8, 3),
        list(7, 2),
        trade(7, 1, 2, 30, 10),
        trade(7, 1, 3, 30, 20),
        trade(7, 3, 1, 10, 20),
        trade(7, 1, 1, 5, 30),
        trade(7, 1, 2, 0, 30),
        trade(8, 1, 2, 5, 30),
        trade(7, 1, 2, 5, 19),
        trade(7, 1, 2, 5, 100),
        trade(7, 1, 4, 1_999_999_930, 99),
        trade(7, 1, 4, 1, 99),
        list(16, 1),
        list(15, 1),
        list(14, 1),
        list(13, 1),
        list(12, 1),
        list(11, 1),
        list(10, 1),
        list(9, 1),
        list(6, 1),
        list(5, 1),
        list(4, 1),
        list(3, 1),
        list(2, 1),
        list(1, 1),
        list(17, 2),
        list(18, 1),
    ]
}
