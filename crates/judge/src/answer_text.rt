// An answer as a line: letter, code and row, and what they mean in words.
use verdicts::answer::Answer;
use words::rule::rule_broken;

pub(crate) fn print_answer(rt: &HostRuntime, answer: &Answer) -> anyhow::Result<()> {
    let letter = char::from(answer.letter());
    let code = answer.code();
    let row = answer.row();
    print!(rt; "{letter},{code},{row} ")?;
    match answer {
        Answer::Taken(_) => println!(rt; "taken")?,
        Answer::PassedOver => println!(rt; "passed over")?,
        Answer::Rejected(reason) => {
            let rule = rule_broken(reason.row);
            println!(rt; "rejected: {rule}")?;
        }
        Answer::Cut(reason) => {
            let rule = rule_broken(reason.row);
            println!(rt; "cut: {rule}")?;
        }
    }
    Ok(())
}
