// What the command of a generated run is by its words: a law, as the contract of a function that does nothing.
ghost use Rattle.socat_top.specs.Words.{CommandIsOfWords};

/// The words `TCP-LISTEN:1,fork,stop-after=50,max-children=8 TCP:localhost:2` make the command of a generated run.
pub fn command_is_of_words()
    ensures { CommandIsOfWords }
{}
