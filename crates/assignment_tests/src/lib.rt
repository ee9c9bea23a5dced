// The rules at the edges of a sound ask.
#![tactic(auto)]

#[cfg(test)]
mod tests {
    use assignment::{Ask, Blocks, Choice, FitRule, Running, UnknownRule};
    use refusals::Refusal;
    use std::test::Fail;

    const UNSOUND: Result<(), Refusal> = Err(Refusal::UnsoundAsk);

    // An ask by its total, its block and its open positions.
    fn ask(total: u32, block: u32, open: &[u32]) -> Ask<'_> {
        Ask { total, block, open }
    }

    #[test]
    fn no_seller(rt: HostRuntime) {
        assert_eq!(rt; Running.ask(ask(0, 1, &[]), &mut []), Ok(()));
        assert_eq!(rt; Blocks.ask(ask(0, 1, &[]), &mut []), Ok(()));
        assert_eq!(rt; Running.ask(ask(1, 1, &[]), &mut []), UNSOUND);
    }

    #[test]
    fn nothing_exercised(rt: HostRuntime) {
        let mut amounts = [7, 7];
        assert_eq!(rt; Running.ask(ask(0, 3, &[5, 3]), &mut amounts), Ok(()));
        assert_eq!(rt; amounts, [0, 0]);
        let mut amounts = [7, 7];
        assert_eq!(rt; Blocks.ask(ask(0, 3, &[5, 3]), &mut amounts), Ok(()));
        assert_eq!(rt; amounts, [0, 0]);
    }

    #[test]
    fn everything_exercised(rt: HostRuntime) {
        let mut amounts = [7, 7];
        assert_eq!(rt; Running.ask(ask(8, 3, &[5, 3]), &mut amounts), Ok(()));
        assert_eq!(rt; amounts, [5, 3]);
        let mut amounts = [7, 7];
        assert_eq!(rt; Blocks.ask(ask(8, 3, &[5, 3]), &mut amounts), Ok(()));
        assert_eq!(rt; amounts, [5, 3]);
    }

    #[test]
    fn block_above_every_position(rt: HostRuntime) {
        let mut amounts = [7, 7];
        assert_eq!(rt; Running.ask(ask(4, 100, &[5, 3]), &mut amounts), Ok(()));
        assert_eq!(rt; amounts, [2, 2]);
        let mut amounts = [7, 7];
        assert_eq!(rt; Blocks.ask(ask(4, 100, &[5, 3]), &mut amounts), Ok(()));
        assert_eq!(rt; amounts, [4, 0]);
    }

    #[test]
    fn as_many_sellers_as_there_may_be(rt: HostRuntime) {
        let mut amounts = [0; 256];
        assert_eq!(rt; Blocks.ask(ask(256, 1, &[1; 256]), &mut amounts), Ok(()));
        assert_eq!(rt; amounts[255], 1);
        assert_eq!(rt; Running.ask(ask(255, 1, &[1; 256]), &mut amounts), Ok(()));
        assert_eq!(rt; amounts[0], 0);
    }

    #[test]
    fn one_seller_too_many(rt: HostRuntime) {
        let mut amounts = [7; 257];
        assert_eq!(rt; Blocks.ask(ask(1, 1, &[1; 257]), &mut amounts), UNSOUND);
        assert_eq!(rt; Running.ask(ask(1, 1, &[1; 257]), &mut amounts), UNSOUND);
        assert_eq!(rt; amounts[256], 7);
    }

    #[test]
    fn largest_sum(rt: HostRuntime) {
        let mut amounts = [0; 2];
        let open = [1_000_000_000, 1_000_000_000];
        let by_blocks = ask(1_999_999_999, 2_000_000_000, &open);
        assert_eq!(rt; Blocks.ask(by_blocks, &mut amounts), Ok(()));
        assert_eq!(rt; amounts, [1_000_000_000, 999_999_999]);
        let by_running_sums = ask(1_999_999_999, 1, &open);
        assert_eq!(rt; Running.ask(by_running_sums, &mut amounts), Ok(()));
        assert_eq!(rt; amounts, [999_999_999, 1_000_000_000]);
    }

    #[test]
    fn past_a_limit(rt: HostRuntime) {
        let mut amounts = [7; 2];
        let more = [1_000_000_000, 1_000_000_001];
        assert_eq!(rt; Running.ask(ask(1, 1, &more), &mut amounts), UNSOUND);
        assert_eq!(rt; Blocks.ask(ask(1, 1, &more), &mut amounts), UNSOUND);
        assert_eq!(rt; Blocks.ask(ask(9, 1, &[5, 3]), &mut amounts), UNSOUND);
        assert_eq!(rt; Blocks.ask(ask(1, 1, &[5, 0]), &mut amounts), UNSOUND);
        assert_eq!(rt; Running.ask(ask(1, 0, &[5, 3]), &mut amounts), UNSOUND);
        let large_block = ask(1, 2_000_000_001, &[5, 3]);
        assert_eq!(rt; Running.ask(large_block, &mut amounts), UNSOUND);
        assert_eq!(rt; amounts, [7, 7]);
    }

    #[test]
    fn answer_list_of_another_length(rt: HostRuntime) {
        let mut short = [7; 1];
        let mut long = [7; 3];
        let two_sellers = ask(1, 1, &[5, 3]);
        assert_eq!(rt; Running.ask(two_sellers, &mut short), UNSOUND);
        assert_eq!(rt; Blocks.ask(two_sellers, &mut short), UNSOUND);
        assert_eq!(rt; Running.ask(two_sellers, &mut long), UNSOUND);
        assert_eq!(rt; Blocks.ask(two_sellers, &mut long), UNSOUND);
        assert_eq!(rt; short, [7]);
        assert_eq!(rt; long, [7, 7, 7]);
    }

    #[test]
    fn rule_by_number(rt: HostRuntime) -> Result<(), Fail> {
        let mut amounts = [0; 3];
        let blocks = Choice::try_from(2).map_err(|_| "rule 2")?;
        assert_eq!(rt; blocks.number(), 2);
        assert_eq!(rt;
            blocks.ask(ask(50, 10, &[30, 30, 40]), &mut amounts),
            Ok(())
        );
        assert_eq!(rt; amounts, [20, 10, 20]);
        let running = Choice::try_from(1).map_err(|_| "rule 1")?;
        assert_eq!(rt; running.ask(ask(5, 1, &[3, 3, 4]), &mut amounts), Ok(()));
        assert_eq!(rt; amounts, [1, 2, 2]);
        assert_eq!(rt; Choice::try_from(0), Err(UnknownRule(0)));
        assert_eq!(rt; Choice::try_from(3), Err(UnknownRule(3)));
        Ok(())
    }
}
