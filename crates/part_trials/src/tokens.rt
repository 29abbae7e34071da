// The tokens of a text: a byte, `colon`, `comma`, `dual` or `equals`, and where it stands; and bytes as they are written.
use addr_words::{
    Token, TokenKind, WordFault, one_fault, spans_cover, tokens_are_told, words_of, write_word,
};
use case_rows::{Answered, Answers, CaseFault, Inputs};
use std::alloc::Global;

pub(crate) fn ask(alloc: Global, inputs: &mut Inputs<'_>, answers: &mut Answers) -> Answered {
    let text = inputs.bytes(alloc)?;
    tokens_are_told();
    spans_cover();
    one_fault();
    match words_of(alloc, text.as_slice()) {
        Ok(words) => say_tokens(words.as_slice(), answers),
        Err(WordFault::Memory) => return Err(CaseFault::NoMemory),
        Err(fault) => {
            let line = format!(in alloc; "{fault}")?;
            answers.word(line.as_str());
        }
    }
    Ok(())
}

pub(crate) fn ask_written(
    alloc: Global,
    inputs: &mut Inputs<'_>,
    answers: &mut Answers,
) -> Answered {
    let bytes = inputs.bytes(alloc)?;
    let word = write_word(alloc, bytes.as_slice())?;
    answers.bytes(word.as_slice());
    Ok(())
}

fn say_tokens(tokens: &[Token], answers: &mut Answers) {
    answers.word_if("none", tokens.is_empty());
    for token in tokens {
        say_kind(token.kind, answers);
        answers.number_part(u64::from(token.from));
        answers.number_part(u64::from(token.to));
    }
}

fn say_kind(kind: TokenKind, answers: &mut Answers) {
    match kind {
        TokenKind::Byte(byte) => answers.bytes(&[byte]),
        TokenKind::Colon => answers.word("colon"),
        TokenKind::Comma => answers.word("comma"),
        TokenKind::Dual => answers.word("dual"),
        TokenKind::Equals => answers.word("equals"),
    }
}
