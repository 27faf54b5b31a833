//! Who may touch a sensor that is kept.
ghost use Rattle.reg_cache.specs.Cacheable.{WhoMayTouch};

use i2c_spec::an_accepted_board_is_a_tree;

/// All transfers of scripts are harmless for what the rule lets callers keep: each is granted no such sensor, or is a driver's read,
/// or a write of the only caller that keeps the sensor.
pub fn kept_sensors_are_left_alone()
    ensures { WhoMayTouch }
{
    an_accepted_board_is_a_tree();
}
