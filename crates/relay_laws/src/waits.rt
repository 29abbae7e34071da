// Waits of the whole, by its parts.
ghost use Rattle.relay_model.specs.{RestIsOfParts, UntilIsLeast};

/// A wait lasts until now where work is left, else until the least moment at which a part falls due.
pub fn until_is_least()
    ensures { UntilIsLeast }
{}

/// The whole rests where the program door rests and each session that has begun.
pub fn rest_is_of_parts()
    ensures { RestIsOfParts }
{}
