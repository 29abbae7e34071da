// What holds of shown bytes by themselves.
ghost use Rattle.place_report.specs.Shown.{ShownTells};

/// What is shown tells the bytes, so that no two words look alike.
pub fn shown_tells()
    ensures { ShownTells }
{}
