ghost use Rattle.std.specs.Prelude.{◌≡◌};
ghost use Rattle.stock_tank.specs.Jobs.{job_of, restored_by, restore_of, restoring};

/// What the back of tank is asked for. A level is the body of a Fixed.
#[derive(Clone, Copy)]
pub enum Job {
    /// The level was set.
    Set([u8; 8]),
    /// The level is restored, and the front is to be told.
    Restore([u8; 8]),
    Other,
}

/// The first byte of a job that restores.
const RESTORE: u8 = 1;

/// What a job asks for.
pub(crate) fn job_of(body: &[u8]) -> Job
    ensures { result ≡ job_of body.now }
{
    match <[u8; 8]>::try_from(body) {
        Ok(level) => Job::Set(level),
        Err(_) => restored_by(body),
    }
}

// The job where it doesn't set the level.
fn restored_by(body: &[u8]) -> Job
    ensures { result ≡ restored_by body.now }
{
    match body.split_first() {
        Some((first, level)) if *first == RESTORE => restore_of(level),
        _ => Job::Other,
    }
}

fn restore_of(level: &[u8]) -> Job
    ensures { result ≡ restore_of level.now }
{
    match <[u8; 8]>::try_from(level) {
        Ok(level) => Job::Restore(level),
        Err(_) => Job::Other,
    }
}

/// The job that restores a level.
pub(crate) fn restoring(level: [u8; 8]) -> [u8; 9]
    ensures { result ≡ restoring level }
{
    let mut job = [RESTORE; 9];
    job[1..].copy_from_slice(&level);
    job
}
